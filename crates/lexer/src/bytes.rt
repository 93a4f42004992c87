// Classes of bytes, runs of them, and the end of a comment.
ghost use Rattle.std.specs.Prelude.{◌≡◌, ◌&&◌, ◌+◌, ◌≤◌, ◌<◌, ℕ, None, length, get_or, eqb, IfSome, unwrap_or};
ghost use Rattle.std.specs.List.{prefix_len};
ghost use Rattle.tokens.specs.Tokens.{between, letter, digit, name_byte, blank};
ghost use Rattle.tokens.specs.Scanning.{closing};
ghost use Rattle.tokens.specs.Marking.{signs_digit};
ghost use Rattle.tokens.specs.Bytes.{star, slash};
ghost use Rattle.lexer.specs.RunLaws.{Closes};

// What closes a comment.
const CLOSE: [u8; 2] = *b"*/";

// The byte at a place, 0 after the last.
pub fn byte(text: &[u8], i: usize) -> u8
    ensures { result ≡ get_or text.now i 0 }
{
    text.get(i).copied().unwrap_or(0)
}

pub fn between(lo: u8, hi: u8, b: u8) -> bool
    ensures { result ≡ between lo hi b }
{
    (lo..=hi).contains(&b)
}

pub(crate) fn is_letter(b: u8) -> bool
    ensures { result ≡ letter b }
{
    b.is_ascii_alphabetic()
}

pub fn is_digit(b: u8) -> bool
    ensures { result ≡ digit b }
{
    b.is_ascii_digit()
}

pub fn is_name_byte(b: u8) -> bool
    ensures { result ≡ name_byte b }
{
    b.is_ascii_alphanumeric() || b == b'_'
}

pub(crate) fn is_blank(b: u8) -> bool
    ensures { result ≡ blank b }
{
    matches!(b, b' ' | b'\t' | b'\n' | b'\r')
}

// Whether two bytes open a comment; whether they are a sign and a digit.
pub(crate) fn opens(b: u8, c: u8) -> bool
    ensures { result ≡ (eqb b slash && eqb c star) }
{
    b == b'/' && c == b'*'
}

pub(crate) fn signed(b: u8, c: u8) -> bool
    ensures { result ≡ signs_digit b c }
{
    (b == b'+' || b == b'-') && is_digit(c)
}

// How many name bytes stand in front.
pub(crate) fn names(text: &[u8]) -> usize
    ensures { result ≡ prefix_len name_byte text.now }
{
    text.iter().take_while(|b| is_name_byte(**b)).count()
}

// How many digits stand in front.
pub(crate) fn digits(text: &[u8]) -> usize
    ensures { result ≡ prefix_len digit text.now }
{
    text.iter().take_while(|b| is_digit(**b)).count()
}

// The place of the first close.
fn close_place(text: &[u8]) -> Option<usize>
    ensures some { IfSome result (λ i. (i + 1 < length text.now) × (Closes text.now i) × ((k : ℕ) → k < i → Closes text.now k → ⊥)) }
    ensures none { result ≡ None → (k : ℕ) → k + 1 < length text.now → Closes text.now k → ⊥ }
{
    // Windows of two bytes take twice as long over a long comment.
    for i in 1..text.len() {
        if text[i] == CLOSE[1] && text[i - 1] == CLOSE[0] {
            return Some(i - 1);
        }
    }
    None
}

// The bytes up to the first close, and with it.
pub(crate) fn closing(text: &[u8]) -> Option<usize>
    ensures value { unwrap_or result 0 ≡ closing text.now }
    ensures some { IfSome result (λ n. (0 < n) × (n ≤ length text.now)) }
{
    Some(close_place(text)? + CLOSE.len())
}
