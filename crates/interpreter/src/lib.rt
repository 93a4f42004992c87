// The run of the engine (01, 'Table and turns'): the schedule moves until commands exist, and each turn byte takes one of them.
#![tactic(auto)]

pub mod moving;
pub mod turns;
