// What is written is read back, and what is read is what would be written. No code.
#![tactic(auto)]
