// The checker: a program image to a number, counts and depth, and its commands to a lent list (01, numbers 1 to 8 and 13).
#![tactic(auto)]

ghost use Rattle.std.specs.Prelude.{◌≡◌};
ghost use Rattle.verdict.specs.Verdict.{refusal, check_verdict, check_list};
ghost use Rattle.checker.specs.Answer.{answer, approved};

use directory::rows::ROWS;
use load::Loaded;
use types::refusal::Refusal;

// 01's number of a lent list with too few places.
pub const SHORT_LIST: u8 = Refusal::NoRoom as u8;

// What checking answers: the number, and of an accepted program how many structs, steps and commands it has, and its depth.
#[derive(Clone, Copy)]
pub struct Verdict {
    pub number: u8,
    pub structs: u8,
    pub steps: u8,
    pub commands: u16,
    pub depth: u8,
}

// A refusal reports no counts and no depth.
fn refused(number: u8) -> Verdict
    ensures { result ≡ answer (refusal number) }
{
    Verdict {
        number,
        structs: 0,
        steps: 0,
        commands: 0,
        depth: 0,
    }
}

fn accepted(p: Loaded) -> Verdict
    ensures { result ≡ approved p }
{
    Verdict {
        number: 0,
        structs: p.structs,
        steps: p.steps,
        commands: p.commands,
        depth: p.depth,
    }
}

// A program image: 1 to 8, then 13; and its commands in the list, from the first place on, where it is accepted.
pub fn check(image: &[u8], list: &mut [u64]) -> Verdict
    ensures value { result ≡ answer (check_verdict image.now list.old) }
    ensures list_after { list.new ≡ check_list image.now list.old }
{
    let mut stream = [0u8; types::PROGRAM_BLOCKS * blocks::PAYLOAD_SIZE];
    let mut counts = [0u8; types::MAX_STRUCTS];
    let mut types = [0u8; types::MAX_STRUCTS * types::MAX_PARAMS];
    let mut rows = [0u16; ROWS];
    let r = load::program(image, &mut stream, &mut counts, &mut types, &mut rows);
    let p = match r {
        Ok(p) => p,
        Err(refusal) => return refused(u8::from(refusal)),
    };
    if list.len() < types::MAX_COMMANDS {
        return refused(SHORT_LIST);
    }
    let n = p.length;
    let k = p.structs as usize;
    emit_steps::program(&stream[..n], &counts[..k], p.at, list);
    accepted(p)
}
