// Literals where they stand in a text: the word of four bytes that a stream has for each, or none where it is outside its type.
ghost use Rattle.std.specs.Prelude.{◌≡◌, true, ◌+◌, ◌*◌, ◌-◌, ◌≤◌, ◌<◌, length, get_or};
ghost use Rattle.types.specs.Limits.{nat_end};
ghost use Rattle.tokens.specs.Tokens.{digit};
ghost use Rattle.meaning.specs.Values.{decimal};
ghost use Rattle.resolve.specs.Digits.{capped, digits_at, nat_at, int_at, signed_word};
ghost use Rattle.tokens.specs.Bytes.{zero_byte};

use lexer::bytes;

const PLUS: u8 = b'+';

// The byte of the digit zero.
const ZERO: u8 = b'0';

const BASE: u64 = 10;

fn digit_value(b: u8) -> u64
    requires { digit b ≡ true }
    ensures { (result ≡ b - zero_byte) × (result < 10) }
{
    u64::from(b - ZERO)
}

// A number with one more digit, up to the bound of Nat.
fn longer(n: u64, b: u8) -> u64
    requires { (n ≤ nat_end) × (digit b ≡ true) }
    ensures { result ≡ capped (n * 10 + (b - zero_byte)) }
{
    types::NAT_END.min(n * BASE + digit_value(b))
}

// The value of the digits at a place, up to the bound of Nat.
fn value(text: &[u8], at: usize) -> u64
    ensures { result ≡ capped (decimal (digits_at text.now at)) }
{
    let mut n = 0;
    for i in at..text.len() {
        let b = text[i];
        if !bytes::is_digit(b) {
            return n;
        }
        n = longer(n, b);
    }
    n
}

// The word of the Nat literal at a place.
pub fn nat_word(text: &[u8], at: usize) -> Option<u32>
    ensures { result ≡ nat_at text.now at }
{
    u32::try_from(value(text, at)).ok()
}

// The word of an Int: a number and whether it stands above zero.
fn signed(above: bool, n: u64) -> Option<u32>
    ensures { result ≡ signed_word above n }
{
    match (above, n) {
        (true, 0..types::INT_HALF) => Some(n as u32),
        (false, 0) => Some(0),
        (false, 1..=types::INT_HALF) => Some((types::NAT_END - n) as u32),
        _ => None,
    }
}

// The word of the Int literal at a place: its digits stand behind its sign.
pub fn int_word(text: &[u8], at: usize) -> Option<u32>
    requires { at < length text.now }
    ensures { result ≡ int_at text.now at }
{
    let n = value(text, at + 1);
    signed(text[at] == PLUS, n)
}
