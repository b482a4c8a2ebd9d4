// Random volumes, uncut and cut, with the answers of the second implementation, computed in proofs/. No code.
#![tactic(auto)]
