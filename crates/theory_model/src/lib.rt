// An executable model of the joiner in specs/: every call in every state has an outcome. No code.
#![tactic(auto)]
