// What a call leaves of the tables that it is not lent: definitions in specs/, the framing law in proofs/. No code.
#![tactic(auto)]
