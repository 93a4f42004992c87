// A whole program stream: its parameters, the steps of its structs, its schedule (01, 'Program stream', and numbers 4 to 8).
#![tactic(auto)]

pub mod totals;

ghost use Rattle.std.specs.Prelude.{◌≡◌, List, [], ℕ, ◌*◌, ◌<◌, ◌≤◌, length};
ghost use Rattle.types.specs.Limits.{max_structs, max_params};
ghost use Rattle.types.specs.Refusals.{numbered};
ghost use Rattle.program.specs.Reader.{read_params, read_items, read_item, read};
ghost use Rattle.directory.specs.Rows.{directory_places};
ghost use Rattle.judge.specs.ProgramFacts.{plan, totals_number};
ghost use Rattle.read_params.specs.ParamsTold.{ParamsKept};
ghost use Rattle.read_program.specs.Total.{with};
ghost use Rattle.read_program.specs.Whole.{summary, read_rest, end_told, rest_told, program_told, RestListed, ReadListed};

use crate::totals::Totals;
use judging::fault;
use read_schedule::{Planned, Steps};
use types::refusal::Refusal;

// What comes of a program: its number, where its schedule begins, how many structs, steps and commands it has, and its depth.
#[derive(Clone, Copy)]
pub struct Summary {
    pub number: u8,
    pub plan: usize,
    pub structs: u8,
    pub steps: usize,
    pub commands: usize,
    pub depth: usize,
}

// The place after the parameters, and what comes of the program.
pub type ProgramRead = Result<(usize, Summary), Refusal>;

// 6 where a limit is passed; else the worse fault.
fn number(t: Totals, p: Planned) -> u8
    ensures { result ≡ totals_number (with t []) (plan p.count p.fault) }
{
    if t.over != 0 || types::MAX_COMMANDS < t.commands || types::SCHEDULE_ITEMS < p.count {
        return u8::from(Refusal::OverLimits);
    }
    fault::worst(t.fault, p.fault)
}

fn summed(structs: u8, at: usize, t: Totals, p: Planned) -> Summary
    ensures { result ≡ summary structs at (with t []) (plan p.count p.fault) }
{
    Summary {
        number: number(t, p),
        plan: at,
        structs,
        steps: t.steps,
        commands: t.commands,
        depth: t.depth,
    }
}

// The schedule, and the stream's end behind it.
fn end(s: &[u8], rows: &[u16], structs: u8, behind: usize, t: Totals, at: usize) -> ProgramRead
    requires { t.steps < 256 }
    ensures { (ar : List ℕ) → length ar ≡ structs
        → numbered result ≡ end_told behind at structs (with t rows.now) s.now (read_items ar s.now (read_item ar s.now 8) at) }
{
    let planned_by = Steps {
        rows,
        steps: t.steps as u8,
        structs,
    };
    let (m, p) = read_schedule::items(s, &planned_by, at, types::FIX_LEVELS)?;
    if m < s.len() {
        return Err(Refusal::WrongEnd);
    }
    Ok((behind, summed(structs, at, t, p)))
}

// The steps of all structs, and the schedule.
fn rest(s: &[u8], ar: &[u8], types: &[u8], rows: &mut [u16], structs: u8, at: usize) -> ProgramRead
    requires ar_len { (length ar.now ≡ structs) × (structs ≤ max_structs) × (at ≤ length s.now) }
    requires s_len_bound { (length s.now < 65536) × (directory_places ≤ length rows.old) }
    ensures value { numbered result ≡ rest_told at ar.now types.now s.now (read_rest ar.now s.now at) }
    ensures rest_listed { RestListed ar.now types.now (read_rest ar.now s.now at) rows.new }
{
    let (m, t) = totals::structs(s, ar, types, rows, structs, totals::none(), at)?;
    end(s, rows, structs, at, t, m)
}

// A program stream. The tables have, for each struct, how many parameters it has, and 8 places with their types, also where what stands behind
// them is refused; where they are refused themselves, the tables are free, of the lengths that they had. Of a program that is read the rows have the step
// directory.
pub fn program(s: &[u8], counts: &mut [u8], types: &mut [u8], rows: &mut [u16]) -> ProgramRead
    requires counts_len { (length counts.old ≡ max_structs) × (length types.old ≡ max_structs * max_params) }
    requires s_len_bound { (length s.now < 65536) × (directory_places ≤ length rows.old) }
    ensures value { numbered result ≡ program_told s.now (read s.now) }
    ensures params_kept { ParamsKept counts.old counts.new types.old types.new (read_params s.now 0) }
    ensures read_listed { ReadListed (read s.now) rows.new }
{
    let (at, structs) = read_params::params(s, counts, types)?;
    let n = structs as usize;
    let end = types::MAX_PARAMS * n;
    rest(s, &counts[..n], &types[..end], rows, structs, at)
}
