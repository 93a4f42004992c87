// The claims stand in proofs/.
#![tactic(auto)]
