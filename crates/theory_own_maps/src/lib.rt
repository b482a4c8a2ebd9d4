// The maps that `label` leaves are those that statement 3 speaks of: a law in proofs/. No code.
#![tactic(auto)]
