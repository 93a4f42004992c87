// Statements of a program stream, read and judged in one walk (01, numbers 4 to 8).
#![tactic(auto)]

pub mod simple;
pub mod stmt;

use judge::Done;
use types::refusal::Refusal;

// What reading answers: the next place and what is computed of what was read, or the refusal.
pub type StmtRead = Result<(usize, Done), Refusal>;
