// The readings' step and the reading of a total: what they decline, answer and leave. No code.
#![tactic(auto)]
