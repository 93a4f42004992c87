// Reads cases on standard input and answers each by a line (docs/CASES.md). A malformed case ends the program, with a line on standard error.
#![tactic(auto)]

ghost use Rattle.std.specs.Prelude.{◌+◌, ◌*◌, ◌≤◌, ◌<◌, length};
ghost use Rattle.audala_cases.specs.Within.{Within};

use files::Failure;
use std::io::Read;
use text::lines;

const HELP: &str = "audala_cases < CASES\n\
    \n\
    Reads cases, each a call of the engine with all that it is given, and answers\n\
    each by a line: the engine's answer and digests of what it wrote. A case that\n\
    is cut short, or is none, ends it with a line on standard error.\n\
    docs/CASES.md has cases and answers byte by byte.";

// The kinds of cases.
const CHECK: u8 = 1;

const RUN: u8 = 2;

const READ: u8 = 3;

// The most that a case may have: list places, and bytes of images, of turns, of text and of output.
const PLACES: usize = 1100;

const IMAGE: usize = 33792;

const TABLE: usize = 9728;

const TURNS: usize = 65600;

const TABLE_OUT: usize = 9216;

const TEXT: usize = 66000;

// What lent memory has in each place and in each byte before the call.
const PLACE: u64 = 11936128518282651045;

const BYTE: u8 = 165;

// Bytes that hold any answer.
const LINE: usize = 256;

// The most cases that are answered.
const CASES: u64 = 4294967296;

// Why no more cases are answered: one is cut short or is none; there are no more; an answer could not be written.
#[derive(Debug, Drop)]
enum Stop {
    Malformed,
    Over,
    Files(Failure),
}

impl From<Failure> for Stop {
    fn from(why: Failure) -> Stop {
        Stop::Files(why)
    }
}

// Fills a buffer.
fn fetch(rt: &HostRuntime, buffer: &mut [u8]) -> Result<(), Stop> {
    rt.stdin().read_exact(buffer).map_err(|_| Stop::Malformed)
}

// A number of four bytes, at most so large.
fn number(rt: &HostRuntime, most: usize) -> Result<usize, Stop>
    ensures { Within most result }
{
    let mut bytes = [0u8; 4];
    fetch(rt, &mut bytes)?;
    let n = cases::number(&bytes) as usize;
    if n <= most {
        Ok(n)
    } else {
        Err(Stop::Malformed)
    }
}

// A length and so many bytes, into the front of a buffer.
fn part(rt: &HostRuntime, buffer: &mut [u8]) -> Result<usize, Stop>
    ensures { Within (length buffer.new) result }
{
    let n = number(rt, buffer.len())?;
    fetch(rt, &mut buffer[..n])?;
    Ok(n)
}

// An answer as a line.
fn answer(rt: &HostRuntime, word: &[u8], numbers: &[u64]) -> Result<(), Stop>
    requires { length word.now + 21 * length numbers.now < 256 }
{
    let mut line = [0u8; LINE];
    let end = lines::row(&mut line, 0, word, numbers);
    files::output(rt, &line[..end])?;
    Ok(())
}

// What stands after the kind in a case of kind 1.
fn check_case(rt: &HostRuntime) -> Result<(), Stop> {
    let places = number(rt, PLACES)?;
    let mut image = [0u8; IMAGE];
    let n = part(rt, &mut image)?;
    let mut list = [PLACE; PLACES];
    let list = &mut list[..places];
    let v = checker::check(&image[..n], list);
    answer(
        rt,
        b"check",
        &[
            u64::from(v.number),
            u64::from(v.structs),
            u64::from(v.steps),
            u64::from(v.commands),
            u64::from(v.depth),
            cases::digest(list),
        ],
    )
}

// What stands after the kind in a case of kind 2.
fn run_case(rt: &HostRuntime) -> Result<(), Stop> {
    let places = number(rt, PLACES)?;
    let room = number(rt, TABLE_OUT)?;
    let mut image = [0u8; IMAGE];
    let n = part(rt, &mut image)?;
    let mut table = [0u8; TABLE];
    let m = part(rt, &mut table)?;
    let mut turns = [0u8; TURNS];
    let t = part(rt, &mut turns)?;
    let mut output = [BYTE; TABLE_OUT];
    let output = &mut output[..room];
    let mut list = [PLACE; PLACES];
    let list = &mut list[..places];
    let r = run_images::run(&image[..n], &table[..m], &turns[..t], output, list);
    answer(
        rt,
        b"run",
        &[
            u64::from(r.number),
            u64::from(r.turns),
            u64::from(r.blocks),
            u64::from(r.depth),
            cases::bytes(output),
            cases::digest(list),
            u64::from(r.holding),
        ],
    )
}

// What stands after the kind in a case of kind 3.
fn read_case(rt: &HostRuntime) -> Result<(), Stop> {
    let room = number(rt, IMAGE)?;
    let mut text = [0u8; TEXT];
    let n = part(rt, &mut text)?;
    let mut output = [BYTE; IMAGE];
    let output = &mut output[..room];
    let r = read_text::read(&text[..n], output);
    answer(
        rt,
        b"text",
        &[
            u64::from(r.number),
            u64::from(r.blocks),
            cases::bytes(output),
        ],
    )
}

// The next case.
fn next(rt: &HostRuntime) -> Result<(), Stop> {
    let mut kind = [0u8; 1];
    if rt.stdin().read_exact(&mut kind).is_err() {
        return Err(Stop::Over);
    }
    match kind[0] {
        CHECK => check_case(rt),
        RUN => run_case(rt),
        READ => read_case(rt),
        _ => Err(Stop::Malformed),
    }
}

// Why case n was the last.
fn tell(rt: &HostRuntime, why: Stop, n: u64) {
    let _ = match why {
        Stop::Malformed => eprintln!(rt; "audala_cases: case {n} is cut short or is none"),
        Stop::Over => Ok(()),
        Stop::Files(why) => eprintln!(rt; "{why}"),
    };
}

fn main(rt: HostRuntime) {
    if files::arg_count(&rt) != 1 {
        let _ = eprintln!(rt; "{HELP}");
        return;
    }
    for n in 1..=CASES {
        if let Err(why) = next(&rt) {
            tell(&rt, why, n);
            return;
        }
    }
}
