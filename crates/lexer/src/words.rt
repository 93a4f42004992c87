// Whether some letters are one of the grammar's words (02 §1), and which: the first letter leaves one word, or the three with a t.
ghost use Rattle.std.specs.Prelude.{◌≡◌};
ghost use Rattle.tokens.specs.Tokens.{same};
ghost use Rattle.tokens.specs.Scanning.{named};
ghost use Rattle.tokens.specs.Kinds.{kind as kind_of};
ghost use Rattle.lexer.specs.WordFirst.{one_word, t_word};

use crate::bytes;
use tokens::kind;

fn same(s: &[u8], t: &[u8]) -> bool
    ensures { result ≡ same s.now t.now }
{
    s == t
}

// The kind of a word if it stands there, or else a name's.
fn only(word: &[u8], own: u8, s: &[u8]) -> u8
    ensures { result ≡ one_word word.now own s.now }
{
    if same(word, s) { own } else { kind::NAME }
}

// The kind of a word that begins with a t, or else a name's.
fn with_t(s: &[u8]) -> u8
    ensures { result ≡ t_word s.now }
{
    if same(b"then", s) {
        kind::THEN
    } else if same(b"this", s) {
        kind::THIS
    } else {
        only(b"true", kind::TRUE, s)
    }
}

// The kind of a word or a name by its bytes: by the first letter, which but for the t belongs to one word alone.
pub(crate) fn kind(s: &[u8]) -> u8
    ensures { result ≡ kind_of (named s.now) }
{
    match bytes::byte(s, 0) {
        b'B' => only(b"Bool", kind::BOOL_TYPE, s),
        b'F' => only(b"Fix", kind::FIX, s),
        b'I' => only(b"Int", kind::INT_TYPE, s),
        b'N' => only(b"Nat", kind::NAT_TYPE, s),
        b'S' => only(b"String", kind::STRING_TYPE, s),
        b'f' => only(b"false", kind::FALSE, s),
        b'i' => only(b"if", kind::IF, s),
        b'n' => only(b"null", kind::NULL, s),
        b's' => only(b"struct", kind::STRUCT, s),
        b't' => with_t(s),
        _ => kind::NAME,
    }
}
