// The definitions and laws of the machine stand in specs/.
#![tactic(auto)]
