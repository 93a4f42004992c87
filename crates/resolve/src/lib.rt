// What names and literals of program text stand for (02 §1): names compared and looked up where they stand, tables of their places, literals by value.
#![tactic(auto)]

pub mod declarations;
pub mod literals;
pub mod names;
pub mod tables;
