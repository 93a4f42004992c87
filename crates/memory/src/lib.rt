// How a machine stands in lent memory: definitions alone (01, 'Table and turns').
#![tactic(auto)]
