// The definitions and laws of demand 3 stand in specs/.
#![tactic(auto)]
