// Bytes in front of those that are written (`compose/specs/Writing.antt`, 'Bytes').
ghost use Rattle.std.specs.Prelude.{◌≡◌, false, List, ℕ, ◌+◌, ◌≤◌, ◌<◌, ◌%◌, length, get_or};
ghost use Rattle.compose.specs.Writing.{wrote, numbered, lengthened, pathed, worded, formed, behinds};
ghost use Rattle.composing.specs.Pens.{stands, Near};
ghost use Rattle.compose.specs.Fits.{kept};

use crate::Pen;

// The later variables that a path may have.
const MAX_LATER: usize = 3;

// Where counts did not keep to what a stream holds.
pub(crate) fn spoilt(p: Pen) -> Pen
    ensures { (result.place ≡ p.place) × (result.height ≡ p.height) × (result.left ≡ p.left) × (result.later ≡ p.later) × (result.fits ≡ false) }
{
    Pen { fits: false, ..p }
}

pub(crate) fn wrote(out: &mut [u8], p: Pen, b: u8) -> Pen
    requires { (0 < p.place) × (p.place ≤ length out.old) }
    ensures by_index { (w n : List ℕ) → stands out.new w n result ≡ wrote b (stands out.old w n p) }
    ensures place_value { (result.place + 1 ≡ p.place) × Near 1 0 0 p result }
{
    let place = p.place - 1;
    out[place] = b;
    Pen { place, ..p }
}

// The byte of a form, where there is one.
pub(crate) fn formed(out: &mut [u8], p: Pen, b: u8) -> Pen
    requires { (0 < p.place) × (p.place ≤ length out.old) }
    ensures by_index { (w n : List ℕ) → stands out.new w n result ≡ formed b (stands out.old w n p) }
    ensures near { Near 1 0 0 p result }
{
    if b == 0 { p } else { wrote(out, p, b) }
}

// The last of the numbers that are left.
fn numbered(out: &mut [u8], numbers: &[u8], p: Pen) -> Pen
    requires { (0 < p.place) × (p.place ≤ length out.old) × (p.left ≤ length numbers.now) }
    ensures by_index { (w : List ℕ) → stands out.new w numbers.now result ≡ numbered (stands out.old w numbers.now p) }
    ensures later_value { (result.later ≡ p.later) × Near 1 0 0 p result }
{
    let n = p.left;
    if n == 0 {
        return spoilt(p);
    }
    let left = n - 1;
    let place = p.place - 1;
    out[place] = numbers[left];
    Pen { place, left, ..p }
}

// One more later variable.
fn lengthened(p: Pen) -> Pen
    requires { p.later + 1 < 18446744073709551616 }
    ensures by_index { (s w n : List ℕ) → stands s w n result ≡ lengthened (stands s w n p) }
    ensures place_value { (result.place ≡ p.place) × Near 0 0 1 p result }
{
    Pen {
        later: p.later + 1,
        ..p
    }
}

// The length of a path.
fn pathed(out: &mut [u8], p: Pen) -> Pen
    requires { (0 < p.place) × (p.place ≤ length out.old) }
    ensures by_index { (w n : List ℕ) → kept (stands out.new w n result) ≡ kept (pathed (stands out.old w n p)) }
    ensures near { Near 1 0 0 p result }
{
    let l = p.later;
    if l > MAX_LATER {
        return spoilt(p);
    }
    let q = wrote(out, p, (l + 1) as u8);
    Pen { later: 0, ..q }
}

fn low(v: u32) -> u8
    ensures { result ≡ v % 256 }
{
    (v % 256) as u8
}

// The four bytes of a literal.
fn worded(out: &mut [u8], p: Pen, v: u32) -> Pen
    requires { (4 ≤ p.place) × (p.place ≤ length out.old) }
    ensures by_index { (w n : List ℕ) → stands out.new w n result ≡ worded v (stands out.old w n p) }
    ensures near { Near 4 0 0 p result }
{
    let second = v / 256;
    let third = second / 256;
    let a = wrote(out, p, low(third / 256));
    let b = wrote(out, a, low(third));
    let c = wrote(out, b, low(second));
    wrote(out, c, low(v))
}

// What stands behind the form's byte.
pub(crate) fn behind(out: &mut [u8], numbers: &[u8], p: Pen, mark: u8, v: u32) -> Pen
    requires { (4 ≤ p.place) × (p.place ≤ length out.old) × (p.left ≤ length numbers.now) × (p.later + 1 < 18446744073709551616) }
    ensures by_index { (w : List ℕ) → kept (stands out.new w numbers.now result)
        ≡ kept (get_or (behinds v) mark (λ x. x) (stands out.old w numbers.now p)) }
    ensures near { Near 4 0 1 p result }
{
    match mark {
        1 => numbered(out, numbers, p),
        2 => lengthened(numbered(out, numbers, p)),
        3 => {
            let q = numbered(out, numbers, p);
            pathed(out, q)
        }
        4 => worded(out, p, v),
        5 => wrote(out, p, 1),
        6 => wrote(out, p, 0),
        _ => p,
    }
}
