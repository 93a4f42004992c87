// Operators, ends of expressions and counts that wait on a lent stack (`compose/specs/Writing.antt`, 'What waits').
ghost use Rattle.std.specs.Prelude.{◌≡◌, List, ℕ, ◌+◌, ◌≤◌, ◌<◌, length, get_or};
ghost use Rattle.compose.specs.Writing.{more, opened, counted, stackings};
ghost use Rattle.composing.specs.Pens.{stands, Near};
ghost use Rattle.compose.specs.Fits.{kept};

use crate::{Pen, bytes};

const MAX_STATEMENTS: u8 = 32;

const MAX_STEPS: u8 = 8;

// One more in a row of so many at most.
fn more(stack: &mut [u8], p: Pen, limit: u8) -> Pen
    requires { p.height ≤ length stack.old }
    ensures by_index { (s n : List ℕ) → kept (stands s stack.new n result) ≡ kept (more limit (stands s stack.old n p)) }
    ensures near { Near 0 0 0 p result }
{
    let h = p.height;
    if h == 0 {
        return bytes::spoilt(p);
    }
    let i = h - 1;
    let c = stack[i];
    if c >= limit {
        return bytes::spoilt(p);
    }
    stack[i] = c + 1;
    p
}

// One more waits.
fn opened(stack: &mut [u8], p: Pen, c: u8) -> Pen
    requires { p.height < length stack.old }
    ensures by_index { (s n : List ℕ) → stands s stack.new n result ≡ opened c (stands s stack.old n p) }
    ensures place_value { (result.place ≡ p.place) × Near 0 1 0 p result }
{
    let h = p.height;
    stack[h] = c;
    Pen { height: h + 1, ..p }
}

// What waits last is taken off.
pub(crate) fn popped(p: Pen) -> Pen
    requires { 0 < p.height }
    ensures { (result.place ≡ p.place) × (result.height + 1 ≡ p.height) × (result.left ≡ p.left) × (result.later ≡ p.later) × (result.fits ≡ p.fits) }
{
    Pen {
        height: p.height - 1,
        ..p
    }
}

// A row begins: its count is written.
pub(crate) fn counted(out: &mut [u8], stack: &[u8], p: Pen) -> Pen
    requires { (0 < p.place) × (p.place ≤ length out.old) × (p.height ≤ length stack.now) }
    ensures by_index { (n : List ℕ) → stands out.new stack.now n result ≡ counted (stands out.old stack.now n p) }
    ensures height_le_height { (result.height ≤ p.height) × Near 1 0 0 p result }
{
    let h = p.height;
    if h == 0 {
        return bytes::spoilt(p);
    }
    let i = h - 1;
    bytes::wrote(out, popped(p), stack[i])
}

// What a role does to what waits.
pub(crate) fn stacked(out: &mut [u8], stack: &mut [u8], p: Pen, mark: u8, o: u8) -> Pen
    requires { (0 < p.place) × (p.place ≤ length out.old) × (p.height < length stack.old) }
    ensures by_index { (n : List ℕ) → kept (stands out.new stack.new n result)
        ≡ kept (get_or (stackings o) mark (λ x. x) (stands out.old stack.old n p)) }
    ensures near { Near 1 1 0 p result }
{
    match mark {
        1 => more(stack, p, MAX_STATEMENTS),
        2 => more(stack, p, MAX_STEPS),
        3 => opened(stack, p, 0),
        4 => counted(out, stack, p),
        5 => opened(stack, p, o),
        6 => {
            let q = counted(out, stack, p);
            opened(stack, q, 0)
        }
        _ => p,
    }
}
