// The definitions and laws of runs stand in specs/.
#![tactic(auto)]
