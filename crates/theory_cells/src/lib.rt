// Lists of calls with those about lists of cells (document 02, item 12): what holds of them. No code.
#![tactic(auto)]
