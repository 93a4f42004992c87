// What a checker computes of expressions and statements, by functions on values (01, numbers 6 to 8).
#![tactic(auto)]

pub mod digits;
pub mod expression;
pub mod fault;
pub mod path;
pub mod statement;
