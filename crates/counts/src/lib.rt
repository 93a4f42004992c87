// The definitions and laws of 02 §14 are in specs/.
#![tactic(auto)]
