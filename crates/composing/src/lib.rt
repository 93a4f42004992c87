// The stream of a text's steps and schedule, written from its end (02 §1): role by role over lent memory, so that no function follows the nesting of the text.
#![tactic(auto)]

mod bytes;
mod header;
mod pouring;
mod roles;
pub mod sizes;
mod table;
mod waiting;

ghost use Rattle.std.specs.Prelude.{◌≡◌, ◌&&◌, ◌-◌, ◌≤◌, ◌<◌, length, leb};
ghost use Rattle.derive.specs.Held.{held};
ghost use Rattle.compose.specs.Writing.{start};
ghost use Rattle.composing.specs.Pens.{stands};
ghost use Rattle.composing.specs.Placing.{placed_in};
ghost use Rattle.compose.specs.Fits.{value_at, writes_at, kept, within};
ghost use Rattle.compose.specs.Header.{Rows};
ghost use Rattle.compose.specs.Composed.{composed_by};
ghost use Rattle.composing.specs.Sizes.{margin, output_size};

use lexer::gaps;
use resolve::literals;
use tokens::kind;

// Where writing stands: the place of the first byte written, how many operators and counts wait, how many numbers are left, the later variables of the path at
// hand, and whether counts keep to what a stream holds: `fits` is a field of `Writing` (compose/specs), and contracts tell the rest also where it is false.
#[derive(Clone, Copy)]
pub struct Pen {
    pub place: usize,
    pub height: usize,
    pub left: usize,
    pub later: usize,
    pub fits: bool,
}

// The number of a literal at a place, 0 of any other role.
fn literal(text: &[u8], i: usize, c: u8) -> u32
    requires { i < length text.now }
    ensures { result ≡ value_at text.now i c }
{
    if c == kind::INT {
        return literals::int_word(text, i).unwrap_or(0);
    }
    if c == kind::NAT {
        return literals::nat_word(text, i).unwrap_or(0);
    }
    0
}

// Whether another role has room, too.
fn roomy(p: Pen) -> bool
    ensures { result ≡ (p.fits && leb margin p.place) }
{
    p.fits && p.place >= sizes::MARGIN
}

// The stream from its end, at the end of the output, if counts keep to what a stream holds and its bytes leave the margin.
fn written(text: &[u8], roles: &[u8], numbers: &[u8], stack: &mut [u8], out: &mut [u8]) -> Pen
    requires { (length roles.now ≤ length text.now) × (length roles.now < length stack.old) × (margin ≤ length out.old) }
    ensures result_after { kept (stands out.new stack.new numbers.now result)
        ≡ within (length out.old - 6)
        (writes_at text.now 0 roles.now (start (held numbers.now (length numbers.now)))) }
    ensures place_in_bounds { (result.place ≤ length out.old) × (result.height ≤ length stack.old) }
{
    stack[0] = 0;
    let mut p = Pen {
        place: out.len(),
        height: 1,
        left: numbers.len(),
        later: 0,
        fits: true,
    };
    // What stands behind the last token, and in front of each, writes nothing: the loop goes from token to token, not from place to place.
    let mut i = gaps::start(roles, roles.len());
    while i > 0 {
        i -= 1;
        let c = roles[i];
        p = roles::put(out, stack, numbers, p, c, literal(text, i, c));
        if !roomy(p) {
            return bytes::spoilt(p);
        }
        i = gaps::start(roles, i);
    }
    p
}

// The whole stream of a text at the end of the output: the types of parameters in front of what its roles write. It is answered where the stream begins, if
// that is not more than a stream holds.
pub fn stream(
    text: &[u8],
    roles: &[u8],
    numbers: &[u8],
    offsets: &[usize],
    types: &[usize],
    stack: &mut [u8],
    out: &mut [u8],
) -> Option<usize>
    requires roles_in_bounds { (length roles.now ≤ length text.now) × (length roles.now < length stack.old) × (length out.old ≡ output_size) }
    requires rows { Rows offsets.now types.now }
    ensures { placed_in out.new result
        ≡ composed_by offsets.now types.now text.now roles.now
        (held numbers.now (length numbers.now)) }
{
    let w = written(text, roles, numbers, stack, out);
    let front = w.place;
    if !w.fits {
        return None;
    }
    if front <= sizes::FRONT {
        return None;
    }
    // The count of the first struct's steps still waits.
    let p = waiting::counted(out, stack, w);
    let place = p.place;
    if !p.fits {
        return None;
    }
    let at = header::write_header(out, types, offsets, place);
    if at < sizes::FRONT {
        return None;
    }
    Some(at)
}
