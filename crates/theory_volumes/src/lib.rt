// The starred volumes of document 01 and Figure 5 of document 003, with the numbers listed there. No code.
#![tactic(auto)]
