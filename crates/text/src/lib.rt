// Text placed in a lent buffer: bytes, decimal numbers, a command (01, 'Bench rows'). Each function answers where writing goes on:
// the laws of listings and traces speak of such places (`Placed`).
#![tactic(auto)]

pub mod lines;

ghost use Rattle.std.specs.Prelude.{[], ◌∷◌, ◌+◌, ◌<◌, ◌≤◌, length};
ghost use Rattle.types.specs.Limits.{nat_end};
ghost use Rattle.text.specs.Listing.{Placed, digits, decimal, push_text, value_text, keyed, text};

use commands::kind::Kind;

// The byte of Int, as a word has it.
const INT: u64 = types::INT as u64;

// The digits that a number of 64 bits may have.
const DIGITS: usize = 20;

// A byte.
pub fn byte(out: &mut [u8], k: usize, b: u8) -> usize
    requires { k < length out.old }
    ensures { Placed (b ∷ []) out.old k result out.new }
{
    out[k] = b;
    k + 1
}

// The bytes of t.
pub fn put(out: &mut [u8], k: usize, t: &[u8]) -> usize
    requires { k + length t.now ≤ length out.old }
    ensures { Placed t.now out.old k result out.new }
{
    let end = k + t.len();
    out[k..end].copy_from_slice(t);
    end
}

fn digit(out: &mut [u8], k: usize, d: u64) -> usize
    requires { (k < length out.old) × (d < 10) }
    ensures { Placed ((48 + d) ∷ []) out.old k result out.new }
{
    byte(out, k, b'0' + d as u8)
}

// The digits of n, at most w of them. By hand: std tells of the bytes that a number prints only in a `String`, and the engine has no heap.
fn digits(out: &mut [u8], k: usize, n: u64, w: usize) -> usize
    requires { k + w ≤ length out.old }
    ensures placed { Placed (digits w n) out.old k result out.new }
    ensures upper_bound { result ≤ k + w }
{
    if w == 0 {
        return k;
    }
    if n < 10 {
        return digit(out, k, n);
    }
    let i = digits(out, k, n / 10, w - 1);
    digit(out, i, n % 10)
}

// A number in decimal.
pub fn decimal(out: &mut [u8], k: usize, n: u64) -> usize
    requires { k + 20 ≤ length out.old }
    ensures placed { Placed (decimal n) out.old k result out.new }
    ensures upper_bound { result ≤ k + 20 }
{
    digits(out, k, n, DIGITS)
}

// The value of a push: an Int from half of the numbers on is negative.
pub fn value(out: &mut [u8], k: usize, typ: u64, v: u64) -> usize
    requires { (k + 21 ≤ length out.old) × (v < nat_end) }
    ensures placed { Placed (value_text typ v) out.old k result out.new }
    ensures upper_bound { result ≤ k + 21 }
{
    if typ != INT || v < types::INT_HALF {
        return decimal(out, k, v);
    }
    let i = byte(out, k, b'-');
    decimal(out, i, types::NAT_END - v)
}

// `push T V`.
fn push(out: &mut [u8], k: usize, typ: u64, v: u64) -> usize
    requires { (k + 47 ≤ length out.old) × (v < nat_end) }
    ensures placed { Placed (push_text typ v) out.old k result out.new }
    ensures upper_bound { result ≤ k + 47 }
{
    let a = put(out, k, b"push ");
    let b = decimal(out, a, typ);
    let c = byte(out, b, b' ');
    value(out, c, typ, v)
}

// A word of at most 5 letters and an operand.
fn keyed(out: &mut [u8], k: usize, key: &[u8], v: u64) -> usize
    requires { (k + 25 ≤ length out.old) × (length key.now ≤ 5) }
    ensures placed { Placed (keyed key.now v) out.old k result out.new }
    ensures upper_bound { result ≤ k + 25 }
{
    let i = put(out, k, key);
    decimal(out, i, v)
}

// A command, by its word: its kind, the type byte of a push, its operand.
pub fn command(out: &mut [u8], k: usize, w: u64) -> usize
    requires { k + 47 ≤ length out.old }
    ensures placed { Placed (text w) out.old k result out.new }
    ensures upper_bound { result ≤ k + 47 }
{
    let v = w / types::NAT_END;
    let Ok(kind) = Kind::try_from(w % 256) else {
        return keyed(out, k, b"op ", v);
    };
    match kind {
        Kind::Push => push(out, k, w / 256 % 256, v),
        Kind::This => put(out, k, b"push this"),
        Kind::Rd => keyed(out, k, b"rd ", v),
        Kind::Wr => keyed(out, k, b"wr ", v),
        Kind::Cons => keyed(out, k, b"cons ", v),
        Kind::If => keyed(out, k, b"if ", v),
        Kind::Not => put(out, k, b"not"),
        Kind::Op => keyed(out, k, b"op ", v),
    }
}
