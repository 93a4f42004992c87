// The definitions and laws of a trace stand in specs/.
#![tactic(auto)]
