// The second pass of the checker: the commands of an accepted program, written into a list that the caller lends (01, 'Names, types, commands').
#![tactic(auto)]

mod exprs;
pub mod steps;
mod stmts;
mod words;

// Where reading goes on, and where writing goes on.
#[derive(Clone, Copy)]
pub struct Put {
    pub next: usize,
    pub at: usize,
}
