// The operators on words of four bytes, as the engine holds values: each contract is an equation with the definitions of the crate
// `operators`.
#![tactic(auto)]

ghost use Rattle.std.specs.Prelude.{◌≡◌, ◌<◌};
ghost use Rattle.std.proofs.Math.Option.{some};
ghost use Rattle.std.specs.Int.Signed.{mag};
ghost use Rattle.types.specs.Limits.{int_half};
ghost use Rattle.types.specs.Values.{word_int, Val.int_val, Val.nat_val, Val.bool_val, Val.label};
ghost use Rattle.operators.specs.Operators.{quotient, remainder};
ghost use Rattle.operators.specs.Apply.{int_answer, by_nonzero, apply};
ghost use Rattle.operators.specs.Named.{meant};
ghost use Rattle.operators.specs.Words.{answered, apply_word, IntOf};
ghost use Rattle.arithmetic.specs.Answered.{found, telling};

use operators::{Operator, OperatorError};

// The word of a truth, where the operator has told one.
fn truth(t: Option<bool>) -> Result<u32, OperatorError>
    ensures { result ≡ answered (telling t) }
{
    match t {
        Some(t) => Ok(u32::from(t)),
        None => Err(OperatorError::Unfit),
    }
}

// The Int that a word is in two's complement.
fn int_of(a: u32) -> i64
    ensures { IntOf a result }
{
    i64::from(a.cast_signed())
}

// The word of a whole number, where it is an Int.
fn int_answer(z: i64) -> Result<u32, OperatorError>
    ensures { result ≡ answered (int_answer (some z)) }
{
    let Ok(n) = i32::try_from(z) else {
        return Err(OperatorError::Outside);
    };
    Ok(n.cast_unsigned())
}

// Rounded toward minus infinity, which by a divisor above zero is Euclid's division; 64 bits hold the least Int negated.
fn quotient_of(x: i64, y: i64) -> Result<i64, OperatorError>
    requires { (mag x < int_half) × (mag y < int_half) }
    ensures { result ≡ found (by_nonzero y (quotient x y)) }
{
    if y == 0 {
        return Err(OperatorError::Outside);
    }
    if y < 0 {
        return Ok((-x).div_euclid(-y));
    }
    Ok(x.div_euclid(y))
}

// What the quotient leaves.
fn remainder_of(x: i64, y: i64) -> Result<i64, OperatorError>
    requires { (mag x < int_half) × (mag y < int_half) }
    ensures { result ≡ found (by_nonzero y (remainder x y)) }
{
    Ok(x - y * quotient_of(x, y)?)
}

// On two words of Int, of Nat, on two truths, on two labels. The comparisons of numbers stand twice: in a function of their own they cost a second branch on
// the operator, some 9 ns measured.
fn apply_int(op: Operator, a: u32, b: u32) -> Result<u32, OperatorError>
    ensures { result ≡ answered (apply (meant op) (int_val (word_int a)) (int_val (word_int b))) }
{
    let x = int_of(a);
    let y = int_of(b);
    let holds = match op {
        Operator::Eq => x == y,
        Operator::Ne => x != y,
        Operator::Le => x <= y,
        Operator::Ge => x >= y,
        Operator::Lt => x < y,
        Operator::Gt => x > y,
        Operator::Mul => return int_answer(x * y),
        Operator::Div => return int_answer(quotient_of(x, y)?),
        Operator::Rem => return int_answer(remainder_of(x, y)?),
        Operator::Add => return int_answer(x + y),
        Operator::Sub => return int_answer(x - y),
        _ => return Err(OperatorError::Unfit),
    };
    Ok(u32::from(holds))
}

fn apply_nat(op: Operator, a: u32, b: u32) -> Result<u32, OperatorError>
    ensures { result ≡ answered (apply (meant op) (nat_val a) (nat_val b)) }
{
    let holds = match op {
        Operator::Eq => a == b,
        Operator::Ne => a != b,
        Operator::Le => a <= b,
        Operator::Ge => a >= b,
        Operator::Lt => a < b,
        Operator::Gt => a > b,
        Operator::Mul => return a.checked_mul(b).ok_or(OperatorError::Outside),
        Operator::Div => return a.checked_div(b).ok_or(OperatorError::Outside),
        Operator::Rem => return a.checked_rem(b).ok_or(OperatorError::Outside),
        Operator::Add => return a.checked_add(b).ok_or(OperatorError::Outside),
        Operator::Sub => return a.checked_sub(b).ok_or(OperatorError::Outside),
        _ => return Err(OperatorError::Unfit),
    };
    Ok(u32::from(holds))
}

fn apply_bool(op: Operator, s: bool, t: bool) -> Result<u32, OperatorError>
    ensures { result ≡ answered (apply (meant op) (bool_val s) (bool_val t)) }
{
    truth(match op {
        Operator::Eq => Some(s == t),
        Operator::Ne => Some(s != t),
        Operator::And => Some(s & t),
        Operator::Or => Some(s | t),
        _ => None,
    })
}

fn apply_label(op: Operator, a: u32, b: u32) -> Result<u32, OperatorError>
    ensures { result ≡ answered (apply (meant op) (label a) (label b)) }
{
    truth(match op {
        Operator::Eq => Some(a == b),
        Operator::Ne => Some(a != b),
        _ => None,
    })
}

// The operator that the byte op names on two words of the type that the byte kind names.
pub fn apply_word(op: u8, kind: u8, a: u32, b: u32) -> Result<u32, OperatorError>
    ensures { result ≡ apply_word op kind a b }
{
    let op = Operator::from(op);
    match kind {
        types::INT => apply_int(op, a, b),
        types::NAT => apply_nat(op, a, b),
        types::BOOL => apply_bool(op, a == 1, b == 1),
        _ => apply_label(op, a, b),
    }
}
