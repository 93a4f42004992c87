// The moves of the schedule and the count of those who hold commands, on lent memory (01, 'Table and turns').
#![tactic(auto)]

pub mod begin;
pub mod count;
pub mod schedule;
