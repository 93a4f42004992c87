// The commands of one step, as that part of the lent list (01, 'Names, types, commands').
#![tactic(auto)]

ghost use Rattle.std.specs.Prelude.{◌≡◌};
ghost use Rattle.verdict.specs.Verdict.{checked};
ghost use Rattle.step_part.specs.StepPart.{nowhere, spot_at, spot_by, step_place, step_part};

use directory::Row;
use directory::rows::{ROWS, find};

// 01's number of a refused image or of a short list, else 0; the place of the step's first command, and how many it has.
#[derive(Clone, Copy)]
pub struct Spot {
    pub number: u8,
    pub start: usize,
    pub len: usize,
}

// No place, with a number.
fn nowhere(number: u8) -> Spot
    ensures { result ≡ nowhere number }
{
    Spot {
        number,
        start: 0,
        len: 0,
    }
}

// Where the commands of a row stand, if one was found.
fn spotted(r: Option<Row>) -> Spot
    ensures { result ≡ spot_at r }
{
    let Some(found) = r else {
        return nowhere(0);
    };
    Spot {
        number: 0,
        start: usize::from(found.start),
        len: usize::from(found.size),
    }
}

// The step of a struct and a name in a program image: it is checked, and its row is looked up. Nothing is written into what the caller lends.
fn locate(image: &[u8], structure: u8, name: u8) -> Spot
    ensures { result ≡ spot_by (checked image.now) structure name }
{
    let mut stream = [0u8; types::PROGRAM_BLOCKS * blocks::PAYLOAD_SIZE];
    let mut counts = [0u8; types::MAX_STRUCTS];
    let mut types = [0u8; types::MAX_STRUCTS * types::MAX_PARAMS];
    let mut rows = [0u16; ROWS];
    let r = load::program(image, &mut stream, &mut counts, &mut types, &mut rows);
    let p = match r {
        Ok(p) => p,
        Err(refusal) => return nowhere(u8::from(refusal)),
    };
    spotted(find(&rows, p.steps, structure, name))
}

// Where the commands of a step begin in the list, and how many it has: 0 and 0 where the image is not accepted, the list is too short
// or the step is not there. The number is what a check of the image with the list answers.
pub fn step_place(image: &[u8], list: &[u64], structure: u8, name: u8) -> Spot
    ensures { result ≡ step_place image.now list.now structure name }
{
    let z = locate(image, structure, name);
    if z.number != 0 {
        return z;
    }
    if list.len() < types::MAX_COMMANDS {
        return nowhere(checker::SHORT_LIST);
    }
    z
}

// The commands of a step, as that part of the list: an empty part where there is none.
pub fn step_commands<'a>(image: &[u8], list: &'a [u64], structure: u8, name: u8) -> &'a [u64]
    ensures { result.now ≡ step_part image.now list.now structure name }
{
    let p = step_place(image, list, structure, name);
    let start = p.start;
    let end = start + p.len;
    &list[start..end]
}
