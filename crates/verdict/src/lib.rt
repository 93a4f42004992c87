// The definitions of what checking answers, and their laws, stand in specs/.
#![tactic(auto)]
