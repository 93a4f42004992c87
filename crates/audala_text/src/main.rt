// Reads program text on standard input and writes its image on standard output (02 §1; docs/FORMAT.md, 'Program text'). A text that is refused is told on
// standard error with its number and, of 15, 16 and 17, the place at which reading stopped; nothing is written.
#![tactic(auto)]

use blocks::BLOCK_SIZE;
use std::fmt;
use types::refusal::Refusal;

// One byte more than a text may have, so that a longer one is told from the longest.
const TEXT: usize = 65537;

const IMAGE: usize = types::PROGRAM_BLOCKS * BLOCK_SIZE;

const HELP: &str = "audala_text < TEXT > IMAGE\n\
    \n\
    Reads a program as text and writes its image: blocks of 512 bytes. A text\n\
    that is refused is told on standard error as 'refused' and the number, and\n\
    nothing is written: 15 no token, or a text over 65536 bytes; 16 no\n\
    derivation; 17 a name, a literal, an argument list or a count; each with\n\
    the line and the column where reading stopped. The checker says whether the\n\
    program is one to run: audala_text < TEXT | audala_list.\n\
    docs/FORMAT.md has the text's grammar, and says what each number means.";

// A line and a column, both from 1.
#[derive(Clone, Copy, PartialEq, Eq, Debug)]
struct Spot {
    line: usize,
    column: usize,
}

impl Spot {
    // Where the byte after some bytes stands.
    fn after(front: &[u8]) -> Spot {
        let ends = front.iter().filter(|b| **b == b'\n').count();
        let last = front.iter().rev().take_while(|b| **b != b'\n').count();
        Spot {
            line: ends + 1,
            column: last + 1,
        }
    }
}

impl fmt::Display for Spot {
    fn fmt<W: fmt::Write>(&self, f: &mut fmt::Formatter<W>) -> fmt::Result {
        let Spot { line, column } = self;
        write!(f, "line {line}, column {column}")
    }
}

// Why there is no image: the number of the refusal and, of 15, 16 and 17, the place.
#[derive(Debug, Drop)]
enum Failure {
    Files(files::Failure),
    Refused(u32),
    Stopped(u32, Spot),
}

impl From<files::Failure> for Failure {
    fn from(why: files::Failure) -> Failure {
        Failure::Files(why)
    }
}

impl fmt::Display for Failure {
    fn fmt<W: fmt::Write>(&self, f: &mut fmt::Formatter<W>) -> fmt::Result {
        match self {
            Failure::Files(files::Failure::Usage) => write!(f, "{HELP}"),
            Failure::Files(why) => write!(f, "{why}"),
            Failure::Refused(number) => write!(f, "refused {number}"),
            Failure::Stopped(number, spot) => write!(f, "refused {number}, {spot}"),
        }
    }
}

// Why a text has no image.
fn refusal(text: &[u8], number: u32) -> Failure {
    // the least number that has a place
    if number < u32::from(u8::from(Refusal::NoToken)) {
        return Failure::Refused(number);
    }
    let at = text_place::place(text);
    Failure::Stopped(number, Spot::after(&text[..at]))
}

fn run(rt: &HostRuntime) -> Result<(), Failure> {
    let mut text = [0u8; TEXT];
    let length = files::input(rt, &mut text)?;
    let mut image = [0u8; IMAGE];
    let read = read_text::read(&text[..length], &mut image);
    if read.number != 0 {
        return Err(refusal(&text[..length], read.number));
    }
    let end = (BLOCK_SIZE * read.blocks as usize).min(IMAGE);
    files::output(rt, &image[..end])?;
    Ok(())
}

fn main(rt: HostRuntime) {
    if let Err(why) = run(&rt) {
        let _ = eprintln!(rt; "{why}");
    }
}
