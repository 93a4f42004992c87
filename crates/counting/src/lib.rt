// How many orders of a started step end in which way, counted on lent memory (02 §14): depth first; each command is taken, what follows it is
// counted, and what it changed is put back.
#![tactic(auto)]

pub mod copies;
pub mod count;
pub mod rows;
