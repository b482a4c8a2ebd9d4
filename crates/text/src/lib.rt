// The text that the listing program reads and the text that it prints: definitions in specs/, laws in proofs/. No code.
#![tactic(auto)]
