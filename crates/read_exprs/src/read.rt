// What reading answers: the next place and what was read there, or the refusal; and the readers of one byte.
ghost use Rattle.std.specs.Prelude.{◌≡◌, ◌+◌};
ghost use Rattle.types.specs.Refusals.{numbered};
ghost use Rattle.types.specs.TypeBytes.{is_type};
ghost use Rattle.program.specs.Reader.{byte, ranged, tested};
ghost use Rattle.read_exprs.specs.Told.{byte_told, ByteSpan};

use judge::{Facts, Judged};
use types::refusal::Refusal;

// What names are judged by: how many parameters each struct has, eight places with the bytes of their types, and the struct whose step is read.
#[derive(Clone, Copy)]
pub struct Names<'a> {
    pub ar: &'a [u8],
    pub types: &'a [u8],
    pub own: u8,
}

// A byte, and the next place.
pub type ByteRead = Result<(u8, usize), Refusal>;

// The next place, how many variables, and where they lead.
pub type PathRead = Result<(usize, u8, Judged), Refusal>;

// The next place, and what is computed of the expression.
pub type ExprRead = Result<(usize, Facts), Refusal>;

// Any byte.
pub fn byte(s: &[u8], at: usize) -> ByteRead
    ensures value { numbered result ≡ byte_told (byte s.now at) }
    ensures byte_span { ByteSpan s.now 0 256 at result }
{
    if s.len() <= at {
        return Err(Refusal::WrongEnd);
    }
    Ok((s[at], at + 1))
}

// A byte from lo up to below hi.
pub fn ranged(s: &[u8], lo: usize, hi: usize, at: usize) -> ByteRead
    ensures value { numbered result ≡ byte_told (ranged s.now lo hi at) }
    ensures byte_span { ByteSpan s.now lo hi at result }
{
    let (b, next) = byte(s, at)?;
    let n = usize::from(b);
    if n < lo || hi <= n {
        return Err(Refusal::WrongByte);
    }
    Ok((b, next))
}

// Whether a byte is a type, where there are n structs. No byte names a struct past 239, so 255 of them stand for more.
fn is_type(n: usize, b: u8) -> bool
    ensures { result ≡ is_type n b }
{
    types::is_type(n.min(255) as u8, b)
}

// The byte of a type, where there are n structs.
pub fn type_byte(s: &[u8], n: usize, at: usize) -> ByteRead
    ensures value { numbered result ≡ byte_told (tested s.now (is_type n) at) }
    ensures byte_span { ByteSpan s.now 0 (16 + n) at result }
{
    let (b, next) = byte(s, at)?;
    if !is_type(n, b) {
        return Err(Refusal::WrongByte);
    }
    Ok((b, next))
}
