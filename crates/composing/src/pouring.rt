// Operators that waited and are written (`compose/specs/Writing.antt`, 'What waits'): where a looser one comes, or their expression begins (02 §2).
ghost use Rattle.std.specs.Prelude.{◌≡◌, List, ℕ, ◌-◌, ◌≤◌, length, get_or};
ghost use Rattle.compose.specs.Writing.{tightness, poured, begun, pourings};
ghost use Rattle.compose.specs.Fits.{within};
ghost use Rattle.composing.specs.Pens.{stands, Poured};
ghost use Rattle.composing.specs.Sizes.{margin};

use crate::{Pen, bytes, sizes, waiting};
use program::form;

// How tight an operator binds, by its byte; what is none does not bind.
fn tightness(c: u8) -> u8
    ensures { result ≡ tightness c }
{
    match c {
        0 => 0,
        1..form::MUL => 3,
        form::MUL..form::ADD => 5,
        form::ADD..form::AND => 4,
        form::AND..form::OR => 2,
        _ => 1,
    }
}

// The operators that wait are written, the last one first, down to one that is not tighter than t, as far as there is room.
fn poured(out: &mut [u8], stack: &[u8], p: Pen, t: u8) -> Pen
    requires { (margin ≤ p.place) × (p.place ≤ length out.old) × (p.height ≤ length stack.now) }
    ensures by_index { (n : List ℕ) → within (length out.old - margin) (stands out.new stack.now n result)
        ≡ within (length out.old - margin) (poured t (stands out.old stack.now n p)) }
    ensures poured { Poured p result }
{
    let mut place = p.place;
    for i in (0..p.height).rev() {
        let c = stack[i];
        if tightness(c) <= t {
            return Pen {
                place,
                height: i + 1,
                ..p
            };
        }
        if place <= sizes::MARGIN {
            return bytes::spoilt(p);
        }
        place -= 1;
        out[place] = c;
    }
    Pen {
        place,
        height: 0,
        ..p
    }
}

// An expression begins.
fn begun(out: &mut [u8], stack: &[u8], p: Pen) -> Pen
    requires { (margin ≤ p.place) × (p.place ≤ length out.old) × (p.height ≤ length stack.now) }
    ensures by_index { (n : List ℕ) → within (length out.old - margin) (stands out.new stack.now n result)
        ≡ within (length out.old - margin) (begun (stands out.old stack.now n p)) }
    ensures poured { Poured p result }
{
    let q = poured(out, stack, p, 0);
    let h = q.height;
    if h == 0 {
        return bytes::spoilt(q);
    }
    waiting::popped(q)
}

// What a role lets go first of what waits.
pub(crate) fn first(out: &mut [u8], stack: &[u8], p: Pen, mark: u8, o: u8) -> Pen
    requires { (margin ≤ p.place) × (p.place ≤ length out.old) × (p.height ≤ length stack.now) }
    ensures by_index { (n : List ℕ) → within (length out.old - margin) (stands out.new stack.now n result)
        ≡ within (length out.old - margin) (get_or (pourings o) mark (λ x. x) (stands out.old stack.now n p)) }
    ensures poured { Poured p result }
{
    match mark {
        1 => begun(out, stack, p),
        2 => poured(out, stack, p, tightness(o)),
        _ => p,
    }
}
