// Lists of statement 3's calls with those that a later request adds. No code.
#![tactic(auto)]
