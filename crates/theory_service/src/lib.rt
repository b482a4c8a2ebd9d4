// Statement 3 for the public entries: their contracts in specs/, and what follows for every opening and every list of calls in proofs/. No code.
#![tactic(auto)]
