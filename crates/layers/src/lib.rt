// The layer of cells that the two blocks of a seam share: definitions in specs/, laws in proofs/. No code.
#![tactic(auto)]
