// Theorems without code: what the service never answers.
#![tactic(auto)]
