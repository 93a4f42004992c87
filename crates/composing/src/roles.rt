// What one role does to what is written (`compose/specs/Writing.antt`, `put`).
ghost use Rattle.std.specs.Prelude.{◌≡◌, ◌+◌, ◌-◌, ◌≤◌, ◌<◌, length};
ghost use Rattle.compose.specs.Writing.{put};
ghost use Rattle.composing.specs.Pens.{stands, Near};
ghost use Rattle.compose.specs.Fits.{within};
ghost use Rattle.composing.specs.Sizes.{margin};

use crate::{Pen, bytes, pouring, table, waiting};
use program::form;
use text_shape::role;
use tokens::kind;

// How far the byte of an operator in a stream is above its kind.
const OP_SHIFT: u8 = form::EQ - kind::EQ;

// One role by its byte, a literal with the number that it is.
pub fn put(out: &mut [u8], stack: &mut [u8], numbers: &[u8], p: Pen, c: u8, v: u32) -> Pen
    requires margin_le_place { (margin ≤ p.place) × (p.place ≤ length out.old) × (p.height < length stack.old) }
    requires left_in_bounds { (p.left ≤ length numbers.now) × (p.later + 1 < 18446744073709551616) }
    ensures result_after { within (length out.old - margin) (stands out.new stack.new numbers.now result)
        ≡ within (length out.old - margin) (put c v (stands out.old stack.old numbers.now p)) }
    ensures near { Near p.place 1 1 p result }
{
    if c >= role::COUNT {
        return p;
    }
    let i = c as usize;
    let a = pouring::first(out, stack, p, table::mark(table::POURING, i), c + OP_SHIFT);
    let q = bytes::behind(out, numbers, a, table::mark(table::BEHIND, i), v);
    let r = bytes::formed(out, q, table::mark(table::FORM, i));
    waiting::stacked(out, stack, r, table::mark(table::STACKING, i), c + OP_SHIFT)
}
