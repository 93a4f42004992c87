// What readers answer, and the laws of things read in a row, stand in specs/.
#![tactic(auto)]
