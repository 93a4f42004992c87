// The listing of a program (01, 'Bench rows'), as text in memory that the caller lends.
#![tactic(auto)]

pub mod image;
