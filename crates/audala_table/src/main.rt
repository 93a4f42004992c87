// A table image as text, and text as a table image (docs/FORMAT.md, 'Tables as text'). Program, table and text are in files that arguments name.
#![tactic(auto)]

ghost use Rattle.std.specs.Prelude.{◌≤◌, length, IfOk};
ghost use Rattle.types.specs.Limits.{max_structs};
ghost use Rattle.seating.specs.Seated.{Tabled};

use blocks::{BLOCK_SIZE, WriteError};
use directory::rows::ROWS;
use numbers::ScanError;
use seating::Opened;
use std::fmt;
use table_stream::NoTable;
use types::refusal::Refusal;

// One byte more than each may have, so that a longer one is told from the longest.
const PROGRAM: usize = types::PROGRAM_BLOCKS * BLOCK_SIZE + 1;

const OUTPUT: usize = types::TABLE_BLOCKS * BLOCK_SIZE;

const STREAM: usize = types::TABLE_BLOCKS * blocks::PAYLOAD_SIZE;

// The words of a table that is made of a text, and those that it has as a table: ten for each line at the most.
const BACK: usize = 25600;

// The words of 256 records with a label, a struct and eight values each, and their text.
const WORDS: usize = 2560;

const TEXT: usize = 65536;

// The words that a program is called with, its own name among them: to print a table, and to write one.
const SHOW: usize = 3;

const MAKE: usize = 4;

const HELP: &str = "audala_table PROGRAM TABLE\n\
    audala_table PROGRAM TEXT OUTPUT\n\
    \n\
    The first prints the table image in the file TABLE as text, a line for\n\
    each record: label, struct, and a value for each of its parameters, as the\n\
    program image in PROGRAM types them. The second reads such lines from\n\
    TEXT and writes the image of their table to OUTPUT. Where a table is\n\
    refused, a line on standard error has its number, and nothing is written.\n\
    docs/FORMAT.md has the text, and says what each number means.";

// Why nothing is written.
#[derive(Debug, Drop)]
enum Failure {
    Files(files::Failure),
    Refused(Refusal),
    Text,
    Numbers(ScanError),
    Record(usize),
    Long,
}

impl From<files::Failure> for Failure {
    fn from(why: files::Failure) -> Failure {
        Failure::Files(why)
    }
}

impl From<Refusal> for Failure {
    fn from(refusal: Refusal) -> Failure {
        Failure::Refused(refusal)
    }
}

impl From<ScanError> for Failure {
    fn from(why: ScanError) -> Failure {
        Failure::Numbers(why)
    }
}

impl From<NoTable> for Failure {
    fn from(why: NoTable) -> Failure {
        match why {
            NoTable::NoRecord(i) => Failure::Record(i),
            NoTable::Short => Failure::Long,
        }
    }
}

impl From<WriteError> for Failure {
    fn from(_why: WriteError) -> Failure {
        Failure::Long
    }
}

impl fmt::Display for Failure {
    fn fmt<W: fmt::Write>(&self, f: &mut fmt::Formatter<W>) -> fmt::Result {
        match self {
            Failure::Files(files::Failure::Usage) => write!(f, "{HELP}"),
            Failure::Files(why) => write!(f, "{why}"),
            Failure::Refused(refusal) => {
                let number = u8::from(*refusal);
                write!(f, "audala_table: refused {number}")
            }
            Failure::Text => write!(f, "audala_table: the text has more than 65535 bytes"),
            Failure::Numbers(ScanError::Strange(i)) => {
                write!(
                    f,
                    "audala_table: no number has this byte of the text, counted from 0: {i}"
                )
            }
            Failure::Numbers(ScanError::Large(i)) => {
                write!(
                    f,
                    "audala_table: a number over 4294967295 at this byte of the text: {i}"
                )
            }
            Failure::Numbers(ScanError::Long) => {
                write!(f, "audala_table: more numbers than 256 records have")
            }
            Failure::Record(i) => write!(
                f,
                "audala_table: no record has what stands behind this many numbers of the text: {i}"
            ),
            Failure::Long => write!(f, "audala_table: the table is too long"),
        }
    }
}

// The first n of some items.
fn front<T>(items: &[T], n: usize) -> Result<&[T], Failure>
    ensures { IfOk result (λ s. length s.now ≤ length items.now) }
{
    if n <= items.len() {
        Ok(&items[..n])
    } else {
        Err(Failure::Long)
    }
}

// A program that is accepted (1 to 8), with its parameters.
fn opened(program: &[u8]) -> Result<Opened, Refusal>
    ensures { IfOk result (λ o. (o.loaded.structs ≤ max_structs) × Tabled o) }
{
    let mut stream = [0u8; seating::SHORT];
    let mut rows = [0u16; ROWS];
    let opened = seating::open_program(program, &mut stream, &mut rows)?;
    Ok(opened)
}

// Whether a table is accepted beside its program (9 to 12). Nothing is run.
fn accepted(program: &Opened, table: &[u8]) -> Result<(), Refusal>
    requires { (program.now.loaded.structs ≤ max_structs) × Tabled program.now }
{
    let mut buffer = [0u8; STREAM];
    let mut heads = [0u16; layout::HEADS];
    let mut cells = [0u64; layout::CELLS];
    let parameters = seating::parameters(program);
    let at = program.loaded.at;
    seating::seat_table(at, parameters, table, &mut buffer, &mut heads, &mut cells)?;
    Ok(())
}

// The words of a table's stream; how many.
fn words(program: &Opened, stream: &[u8], out: &mut [u64]) -> usize {
    let structs = program.loaded.structs;
    table_words::words(&program.counts, &program.types, structs, stream, out)
}

// A table as text to standard output.
fn show(rt: &HostRuntime, program: &Opened, table: &[u8]) -> Result<(), Failure>
    requires { (program.now.loaded.structs ≤ max_structs) × Tabled program.now }
{
    accepted(program, table)?;
    let mut stream = [0u8; STREAM];
    let length = blocks::open_image(table, types::TABLE_BLOCKS, &mut stream).map_err(
        |fault| blocks::table_number(fault),
    )?;
    let mut held = [0u64; WORDS];
    let count = words(program, front(&stream, length)?, &mut held);
    let mut text = [0u8; TEXT];
    let end = number_lines::print(front(&held, count)?, &mut text);
    files::output(rt, &text[..end])?;
    Ok(())
}

// The table that a text has to the file that argument 3 names.
fn make(rt: &HostRuntime, program: &Opened, text: &[u8]) -> Result<(), Failure>
    requires { (program.now.loaded.structs ≤ max_structs) × Tabled program.now }
{
    let mut held = [0u64; WORDS];
    let count = numbers::scan(text, &mut held)?;
    let mut stream = [0u8; STREAM];
    let length = table_stream::stream(&held[..count], &mut stream);
    let mut back = [0u64; BACK];
    let again = words(program, front(&stream, length)?, &mut back);
    let length = table_stream::judge(STREAM, length, &held[..count], front(&back, again)?)?;
    let mut image = [0u8; OUTPUT];
    let blocks = blocks::write_image(front(&stream, length)?, types::TABLE_BLOCKS, &mut image)?;
    let image = front(&image, blocks.saturating_mul(BLOCK_SIZE))?;
    accepted(program, image)?;
    files::store(rt, 3, image)?;
    Ok(())
}

fn run(rt: &HostRuntime) -> Result<(), Failure> {
    let called = files::arg_count(rt);
    if called != SHOW && called != MAKE {
        return Err(Failure::Files(files::Failure::Usage));
    }
    let mut program = [0u8; PROGRAM];
    let n = files::load(rt, 1, &mut program)?;
    let mut other = [0u8; TEXT];
    let k = files::load(rt, 2, &mut other)?;
    if called == MAKE && k == TEXT {
        return Err(Failure::Text);
    }
    let program = opened(&program[..n])?;
    if called == SHOW {
        show(rt, &program, &other[..k])
    } else {
        make(rt, &program, &other[..k])
    }
}

fn main(rt: HostRuntime) {
    if let Err(why) = run(&rt) {
        let _ = eprintln!(rt; "{why}");
    }
}
