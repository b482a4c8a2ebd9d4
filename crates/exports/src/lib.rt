// Statement 3 for the exports: what they promise and lists of their calls in specs/, and what follows in proofs/. No code.
#![tactic(auto)]
