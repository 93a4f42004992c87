// Expressions of a program stream, read and judged in one walk (01, numbers 4 to 8).
#![tactic(auto)]

pub mod expr;
pub mod leaf;
pub mod path;
pub mod read;
