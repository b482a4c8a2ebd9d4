// Two larger volumes cut and joined by the model of the joiner, computed in proofs/. No code.
#![tactic(auto)]
