// Numbers in decimal from text: blanks, tabs, commas and line ends part them, a minus sign may stand before one. A number is handed out as
// one word, with a mark where it is the first of its line and one where it has a minus sign (docs/FORMAT.md, 'Numbers as text').
#![tactic(auto)]

ghost use Rattle.std.specs.Prelude.{◌≡◌, ◌+◌, ◌*◌, ◌≤◌, length, IfOk};
ghost use Rattle.std.proofs.lemmas.List.Edits.{sets};
ghost use Rattle.numbers.specs.Scan.{char_of, step, in_gap, behind_sign, longer, in_number, coded, turn_of, turn_into, scanned, words};
ghost use Rattle.numbers.specs.Scan.{bytes_of, bytes_answer};

// A word from here on has a minus sign; one from there on is the first of its line.
pub const MINUS: u64 = 4294967296;

pub const FIRST: u64 = 8589934592;

// What a byte of the text is.
#[derive(Clone, Copy)]
pub enum Char {
    Digit(u8),
    Minus,
    Line,
    Blank,
    Other,
}

// A number so far: whether it is its line's first, whether it has a minus sign, its value.
#[derive(Clone, Copy)]
pub struct Number {
    pub first: bool,
    pub minus: bool,
    pub value: u32,
}

// Between numbers or after a minus sign, and whether the next number is its line's first; or in a number.
#[derive(Clone, Copy)]
pub enum State {
    Gap(bool),
    Sign(bool),
    Open(Number),
}

// Why a byte belongs to no number: it stands where none may stand, or the number gets too large.
#[derive(Clone, Copy)]
pub enum Fault {
    Strange,
    Large,
}

// A number that ends at a byte, if one does, and the state after it.
type Step = Result<(Option<Number>, State), Fault>;

// Why a text gives no numbers: the place of the byte that is strange or makes a number too large, or that there are too many.
#[derive(Clone, Copy, PartialEq, Eq, Debug)]
pub enum ScanError {
    Strange(usize),
    Large(usize),
    Long,
}

// Why words are no bytes: the first that is none, counted from 1, or that there are too many.
#[derive(Clone, Copy, PartialEq, Eq, Debug)]
pub enum BytesError {
    Large(usize),
    Long,
}

impl From<u8> for Char {
    ghost from_gives = { λ c r. r ≡ char_of c };

    fn from(c: u8) -> Char {
        match c {
            b'\n' => Char::Line,
            b'-' => Char::Minus,
            b' ' | b'\t' | b'\r' | b',' => Char::Blank,
            b'0'..=b'9' => Char::Digit(c - b'0'),
            _ => Char::Other,
        }
    }
}

// The word of a number.
impl From<Number> for u64 {
    ghost from_gives = { λ n r. r ≡ coded n.first n.minus n.value };

    fn from(n: Number) -> u64 {
        let first = if n.first { FIRST } else { 0 };
        let minus = if n.minus { MINUS } else { 0 };
        first + minus + u64::from(n.value)
    }
}

fn in_gap(first: bool, c: Char) -> Step
    ensures { result ≡ in_gap first c }
{
    let next = match c {
        Char::Digit(d) => State::Open(Number {
            first,
            minus: false,
            value: u32::from(d),
        }),
        Char::Minus => State::Sign(first),
        Char::Line => State::Gap(true),
        Char::Blank => State::Gap(first),
        Char::Other => return Err(Fault::Strange),
    };
    Ok((None, next))
}

fn behind_sign(first: bool, c: Char) -> Step
    ensures { result ≡ behind_sign first c }
{
    let Char::Digit(d) = c else {
        return Err(Fault::Strange);
    };
    let open = Number {
        first,
        minus: true,
        value: u32::from(d),
    };
    Ok((None, State::Open(open)))
}

// A digit after a number so far.
fn longer(n: Number, d: u8) -> Step
    ensures { result ≡ longer n d }
{
    let value = 10 * u64::from(n.value) + u64::from(d);
    let Ok(value) = u32::try_from(value) else {
        return Err(Fault::Large);
    };
    let open = Number {
        first: n.first,
        minus: n.minus,
        value,
    };
    Ok((None, State::Open(open)))
}

fn in_number(n: Number, c: Char) -> Step
    ensures { result ≡ in_number n c }
{
    match c {
        Char::Digit(d) => longer(n, d),
        Char::Line => Ok((Some(n), State::Gap(true))),
        Char::Blank => Ok((Some(n), State::Gap(false))),
        Char::Minus | Char::Other => Err(Fault::Strange),
    }
}

fn stepped(s: State, c: Char) -> Step
    ensures { result ≡ step s c }
{
    match s {
        State::Gap(first) => in_gap(first, c),
        State::Sign(first) => behind_sign(first, c),
        State::Open(n) => in_number(n, c),
    }
}

// The byte at a place of the text, where n words stand: a number that ends there is written behind them. The state after it, and how many
// words then stand.
fn turned(
    s: State,
    c: Char,
    at: usize,
    n: usize,
    out: &mut [u64],
) -> Result<(State, usize), ScanError>
    requires { n ≤ length out.old }
    ensures value { result ≡ turn_of (length out.old) at n (step s c) }
    ensures bound { IfOk result (λ turn. turn.1 ≤ length out.old) }
    ensures out_after { out.new ≡ turn_into out.old n (step s c) }
{
    match stepped(s, c) {
        Ok((None, next)) => Ok((next, n)),
        Ok((Some(number), next)) => {
            if out.len() <= n {
                return Err(ScanError::Long);
            }
            out[n] = u64::from(number);
            Ok((next, n + 1))
        }
        Err(Fault::Strange) => Err(ScanError::Strange(at)),
        Err(Fault::Large) => Err(ScanError::Large(at)),
    }
}

// The numbers of a text, one word each from the start of out; how many. The text's end is a line end.
pub fn scan(text: &[u8], out: &mut [u64]) -> Result<usize, ScanError>
    ensures value { result ≡ scanned (length out.old) text.now }
    ensures bound { IfOk result (λ n. n ≤ length out.old) }
    ensures out_after { out.new ≡ sets out.old 0 (words text.now) }
{
    let mut state = State::Gap(true);
    let mut n = 0;
    for (i, c) in text.iter().enumerate() {
        let (next, count) = turned(state, Char::from(*c), i, n, out)?;
        state = next;
        n = count;
    }
    let (_, count) = turned(state, Char::Line, text.len(), n, out)?;
    Ok(count)
}

// The numbers as bytes, from the start of out: those of words that a scan gave, without their marks; how many.
pub fn as_bytes(words: &[u64], out: &mut [u8]) -> Result<usize, BytesError>
    ensures value { result ≡ bytes_answer (length out.old) 0 words.now }
    ensures bound { IfOk result (λ n. n ≤ length out.old) }
    ensures out_after { out.new ≡ sets out.old 0 (bytes_of words.now) }
{
    for (i, w) in words.iter().enumerate() {
        let Ok(b) = u8::try_from(*w % FIRST) else {
            return Err(BytesError::Large(i + 1));
        };
        if out.len() <= i {
            return Err(BytesError::Long);
        }
        out[i] = b;
    }
    Ok(words.len())
}
