// The operators of 01 on values, in specs/, and as a type; what an operator answers on words of four bytes, the crate `arithmetic` computes.
#![tactic(auto)]

ghost use Rattle.std.specs.Prelude.{◌≡◌};
ghost use Rattle.operators.specs.Words.{op_of};
ghost use Rattle.operators.specs.Named.{meant};

// The operators in the order of their bytes.
#[derive(Clone, Copy, PartialEq, Eq, Debug)]
pub enum Operator {
    Eq,
    Ne,
    Le,
    Ge,
    Lt,
    Gt,
    Mul,
    Div,
    Rem,
    Add,
    Sub,
    And,
    Or,
}

// The operator that a byte names. A byte below that of = is taken as =, one above that of or as or; no reader hands one over.
impl From<u8> for Operator {
    ghost from_gives = { λ b o. meant o ≡ op_of b };

    fn from(byte: u8) -> Operator {
        match byte {
            0..=32 => Operator::Eq,
            33 => Operator::Ne,
            34 => Operator::Le,
            35 => Operator::Ge,
            36 => Operator::Lt,
            37 => Operator::Gt,
            38 => Operator::Mul,
            39 => Operator::Div,
            40 => Operator::Rem,
            41 => Operator::Add,
            42 => Operator::Sub,
            43 => Operator::And,
            _ => Operator::Or,
        }
    }
}

// Why an operator answers no word: number 35, or operands that it does not take.
#[derive(Clone, Copy, PartialEq, Eq, Debug)]
pub enum OperatorError {
    Outside,
    Unfit,
}
