// Tokens of program text by their kinds (02 §1): for each place of a text the kind of the token that begins there, 0 where none does.
#![tactic(auto)]

pub mod bytes;
pub mod gaps;
pub mod words;

ghost use Rattle.std.specs.Prelude.{◌≡◌, [], ◌∷◌, ◌+◌, ◌≤◌, ◌<◌, length, get_or, drop, IfSome, ℕ};
ghost use Rattle.std.proofs.lemmas.List.Edits.{sets};
ghost use Rattle.tokens.specs.Scanning.{Class.letters, Class.digits, nat_front, closing, comment_front, other_front, front_of, find_sign, signs, front};
ghost use Rattle.tokens.specs.Marking.{followed, spot_of, Lone, parts, marks};
ghost use Rattle.lexer.specs.Gaps.{Gap};

use bytes::byte;
use tokens::{Spot, kind};

// The n that ends a Nat literal.
const NAT_END: u8 = b'n';

// A word or a name, which begins with a letter.
fn name(text: &[u8]) -> Spot
    requires { 0 < length text.now }
    ensures { result ≡ spot_of (front_of letters (get_or text.now 0 0) (drop 1 text.now)) }
{
    let more = bytes::names(&text[1..]);
    Some((words::kind(&text[..more + 1]), more))
}

// Digits and the n after them, whatever the first digit.
fn nat(rest: &[u8]) -> Spot
    ensures { (b : ℕ) → result ≡ spot_of (front_of digits b rest.now) }
{
    let more = bytes::digits(rest);
    if byte(rest, more) == NAT_END {
        Some((kind::NAT, more + 1))
    } else {
        None
    }
}

// A byte that is two with another, or else one by itself, if it is any.
fn followed(c: u8, d: u8, two: u8, one: Option<u8>) -> Spot
    ensures { result ≡ followed c d two one }
{
    if c == d {
        Some((two, 1))
    } else {
        one.map(|kind| (kind, 0))
    }
}

// Signs and operators, by a byte and the one behind it.
fn sign(b: u8, c: u8) -> Spot
    ensures { result ≡ spot_of (find_sign signs (b ∷ c ∷ [])) }
{
    match b {
        b'!' => followed(c, b'=', kind::NE, Some(kind::BANG)),
        b'%' => Some((kind::REM, 0)),
        b'&' => followed(c, b'&', kind::AND, None),
        b'(' => Some((kind::LPAR, 0)),
        b')' => Some((kind::RPAR, 0)),
        b'*' => Some((kind::MUL, 0)),
        b'+' => Some((kind::ADD, 0)),
        b',' => Some((kind::COMMA, 0)),
        b'-' => Some((kind::SUB, 0)),
        b'.' => Some((kind::DOT, 0)),
        b'/' => Some((kind::DIV, 0)),
        b':' => followed(c, b'=', kind::ASSIGN, Some(kind::COLON)),
        b';' => Some((kind::SEMICOLON, 0)),
        b'<' => followed(c, b'=', kind::LE, Some(kind::LT)),
        b'=' => Some((kind::EQ, 0)),
        b'>' => followed(c, b'=', kind::GE, Some(kind::GT)),
        b'{' => Some((kind::LBRACE, 0)),
        b'|' => followed(c, b'|', kind::OR, None),
        b'}' => Some((kind::RBRACE, 0)),
        _ => None,
    }
}

// What begins with neither letter, digit nor blank: a comment, an Int literal, a sign.
fn other(b: u8, rest: &[u8]) -> Spot
    ensures { result ≡ spot_of (other_front b rest.now) }
{
    let c = byte(rest, 0);
    if bytes::opens(b, c) {
        let inside = bytes::closing(&rest[1..])?;
        return Some((kind::NONE, inside + 1));
    }
    if bytes::signed(b, c) {
        return Some((kind::INT, bytes::digits(rest)));
    }
    sign(b, c)
}

// The kind of a byte that is a token whatever stands after it.
fn alone(b: u8) -> Option<u8>
    ensures { IfSome result (Lone b) }
{
    let kind = match b {
        b'(' => kind::LPAR,
        b')' => kind::RPAR,
        b'{' => kind::LBRACE,
        b'}' => kind::RBRACE,
        b',' => kind::COMMA,
        b';' => kind::SEMICOLON,
        b'.' => kind::DOT,
        b'=' => kind::EQ,
        b'*' => kind::MUL,
        b'%' => kind::REM,
        _ => return None,
    };
    Some(kind)
}

// The longest token at the front of a text, or a gap. Every second token is a byte alone, so these are told first.
pub fn token(text: &[u8]) -> Spot
    ensures { result ≡ spot_of (front text.now) }
{
    let [b, rest @ ..] = text else {
        return None;
    };
    if let Some(kind) = alone(*b) {
        return Some((kind, 0));
    }
    if bytes::is_letter(*b) {
        return name(text);
    }
    if bytes::is_digit(*b) {
        return nat(rest);
    }
    if bytes::is_blank(*b) {
        return Some((kind::NONE, 0));
    }
    other(*b, rest)
}

// The kinds of a text's tokens, each in its place, and whether the text parts into tokens: up to a place where it does not. No token begins among the kinds
// before, so that nothing is written inside a token or a comment.
pub fn mark(text: &[u8], kinds: &mut [u8]) -> bool
    requires { (length text.now ≤ length kinds.old) × (Gap kinds.old 0 (length kinds.old)) }
    ensures value { result ≡ parts text.now }
    ensures kinds_after { kinds.new ≡ sets kinds.old 0 (marks text.now) }
{
    let mut i = 0;
    // A token says how far the next one is.
    while let Some((kind, n)) = token(&text[i..]) {
        kinds[i] = kind;
        i += n + 1;
    }
    i == text.len()
}
