// What program text means: definitions and laws stand in specs/.
#![tactic(auto)]
