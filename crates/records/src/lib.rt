// The block record: definitions in specs/, laws in proofs/. No code.
#![tactic(auto)]
