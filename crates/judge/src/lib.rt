// What a checker computes of expressions and statements, as values (01, numbers 6 to 8). The crate `judging` computes it.
#![tactic(auto)]

// A fault, 0 or 7 or 8, and a type's byte where there is none.
#[derive(Clone, Copy)]
pub struct Judged {
    pub fault: u8,
    pub typ: u8,
}

// Of an expression: how many commands, how high its stack, and its type.
#[derive(Clone, Copy)]
pub struct Facts {
    pub size: usize,
    pub peak: usize,
    pub fault: u8,
    pub typ: u8,
}

// The locals of a step: a digit to the base 256 for each, 1 more than its type while it lives; 1 once it was declared.
#[derive(Clone, Copy)]
pub struct Scope {
    pub live: u64,
    pub seen: u64,
}

// Of statements: how many commands, how high their stack, the labels left on it, a fault, and the locals behind them.
#[derive(Clone, Copy)]
pub struct Done {
    pub size: usize,
    pub height: usize,
    pub growth: usize,
    pub fault: u8,
    pub after: Scope,
}
