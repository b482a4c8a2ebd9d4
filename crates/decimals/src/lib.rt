// Numbers in decimal digits, for the listing and the printed layer: definitions in specs/, laws in proofs/. No code.
#![tactic(auto)]
