// The grammar of program text: definitions and laws stand in specs/.
#![tactic(auto)]
