// The schedule, read and planned in one walk (01, 'Program stream', and number 7): how many items, and whether each step is there.
#![tactic(auto)]

ghost use Rattle.std.specs.Prelude.{◌≡◌, List, ℕ, ◌+◌, ◌<◌, ◌^◌, length};
ghost use Rattle.types.specs.Refusals.{numbered};
ghost use Rattle.program.specs.Tree.{Item.call};
ghost use Rattle.program.specs.Reader.{made, ranged, read_items, read_item};
ghost use Rattle.directory.specs.Rows.{rows_from};
ghost use Rattle.judge.specs.Facts.{named};
ghost use Rattle.judge.specs.ProgramFacts.{plan, joined, had, item_plan, items_plan};
ghost use Rattle.read_schedule.specs.PlanTold.{planned, told, read_call_in, Ahead};

use directory::rows::there;
use judging::fault;
use program::form;
use read_exprs::read;
use types::refusal::Refusal;

// How many items, those inside a Fix among them, and a fault, 0 or 7.
#[derive(Clone, Copy)]
pub struct Planned {
    pub count: usize,
    pub fault: u8,
}

// What a schedule is planned by: the rows of the step directory, how many steps they are of, and how many structs there are.
#[derive(Clone, Copy)]
pub struct Steps<'a> {
    pub rows: &'a [u16],
    pub steps: u8,
    pub structs: u8,
}

// The next place, and what is planned.
pub type PlanRead = Result<(usize, Planned), Refusal>;

// Whether some struct has the step n.
fn had(t: &Steps, n: u8) -> bool
    ensures { result ≡ had (rows_from t.now.rows.now 0 t.now.steps) n 0 t.now.structs }
{
    for k in 0..t.structs {
        if there(t.rows, t.steps, k, n) {
            return true;
        }
    }
    false
}

// One step, which is there or not.
fn one(there: bool) -> Planned
    ensures { result ≡ planned (plan 1 (named there)) }
{
    Planned {
        count: 1,
        fault: fault::named(there),
    }
}

// A step of every struct that has it.
fn call(s: &[u8], t: &Steps, at: usize) -> PlanRead
    ensures value { numbered result ≡ told (item_plan (rows_from t.now.rows.now 0 t.now.steps) t.now.structs)
        (made call (ranged s.now 0 32 at)) }
    ensures ahead { Ahead s.now at result }
{
    let (n, m) = read::ranged(s, 0, types::STEP_NAMES, at)?;
    Ok((m, one(had(t, n))))
}

// A step of one struct.
fn call_in(s: &[u8], t: &Steps, at: usize) -> PlanRead
    ensures value { numbered result ≡ told (item_plan (rows_from t.now.rows.now 0 t.now.steps) t.now.structs)
        (read_call_in s.now t.now.structs at) }
    ensures ahead { Ahead s.now at result }
{
    let (k, m) = read::ranged(s, 0, usize::from(t.structs), at)?;
    let (n, next) = read::ranged(s, 0, types::STEP_NAMES, m)?;
    Ok((next, one(there(t.rows, t.steps, k, n))))
}

// Items, and another after them.
fn joined(p: Planned, q: Planned) -> Planned
    requires { p.count + q.count < 2 ^ 64 }
    ensures { result ≡ planned (joined (plan p.count p.fault) (plan q.count q.fault)) }
{
    Planned {
        count: p.count + q.count,
        fault: fault::worst(p.fault, q.fault),
    }
}

// An item with at most depth levels of Fix.
#[cycle(item_items)]
fn item(s: &[u8], t: &Steps, at: usize, depth: usize) -> PlanRead
    ensures by_index { (ar : List ℕ) → length ar ≡ t.now.structs
        → numbered result ≡ told (item_plan (rows_from t.now.rows.now 0 t.now.steps) t.now.structs) (read_item ar s.now depth at) }
    ensures ahead { Ahead s.now at result }
{
    if s.len() <= at {
        return Err(Refusal::WrongEnd);
    }
    let b = s[at];
    let k = at + 1;
    if b == form::CALL {
        return call(s, t, k);
    }
    if b == form::CALL_IN {
        return call_in(s, t, k);
    }
    if b != form::FIX || depth == 0 {
        return Err(Refusal::WrongByte);
    }
    let (next, p) = items(s, t, k, depth - 1)?;
    Ok((
        next,
        Planned {
            count: p.count + 1,
            fault: p.fault,
        },
    ))
}

// The items of the schedule or of a Fix, with at most depth levels of Fix inside; the rows, one for each step, tell which steps the structs have.
#[cycle(item_items)]
pub fn items(s: &[u8], t: &Steps, at: usize, depth: usize) -> PlanRead
    ensures by_index { (ar : List ℕ) → length ar ≡ t.now.structs
        → numbered result ≡ told (items_plan (rows_from t.now.rows.now 0 t.now.steps) t.now.structs)
        (read_items ar s.now (read_item ar s.now depth) at) }
    ensures ahead { Ahead s.now at result }
{
    let (n, m) = read::ranged(s, 1, types::MAX_ITEMS + 1, at)?;
    let mut all = Planned { count: 0, fault: 0 };
    let mut next = m;
    for i in 0..n {
        let (behind, p) = item(s, t, next, depth)?;
        all = joined(all, p);
        next = behind;
    }
    Ok((next, all))
}
