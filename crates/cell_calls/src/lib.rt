// Cells looked up together: what the two calls decline, answer and leave. No code.
#![tactic(auto)]
