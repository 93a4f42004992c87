// The definitions and laws of 02 §11 stand in specs/.
#![tactic(auto)]
