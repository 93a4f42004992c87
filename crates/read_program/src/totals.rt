// The steps of all structs, read and totalled up in one walk (01, 'Program stream', and numbers 4 to 8).
ghost use Rattle.std.specs.Prelude.{◌≡◌, not, [], ◌∷◌, ◌+◌, ◌*◌, ◌<◌, ◌≤◌, ◌^◌, length};
ghost use Rattle.types.specs.Limits.{max_structs, max_steps};
ghost use Rattle.types.specs.Refusals.{numbered};
ghost use Rattle.program.specs.Reader.{many, read_step, read_steps};
ghost use Rattle.directory.specs.Directory.{row, there};
ghost use Rattle.directory.specs.Rows.{row_places, put_row, rows_from};
ghost use Rattle.judge.specs.ProgramFacts.{no_totals, struct_totals, step_totals};
ghost use Rattle.read_program.specs.Own.{Led, Leads};
ghost use Rattle.read_program.specs.Total.{with, less, over_by, plus, step_total, Told, Low, Free, Bounded};

use directory::Row;
use directory::rows::{put_row, row_at};
use judge::{Done, Scope};
use judging::fault;
use read_exprs::read;
use read_exprs::read::Names;
use read_stmts::stmt;
use types::refusal::Refusal;

// Of the steps so far: how many, their commands, the greatest depth, 1 once a limit of a step is passed, and a fault.
// These two are numbers, since the definitions of `ProgramFacts` compute with them.
#[derive(Clone, Copy)]
pub struct Totals {
    pub steps: usize,
    pub commands: usize,
    pub depth: usize,
    pub over: u8,
    pub fault: u8,
}

// The next place, and what is totalled up.
pub type TotalsRead = Result<(usize, Totals), Refusal>;

// Of no steps.
pub fn none() -> Totals
    ensures { result ≡ less no_totals }
{
    Totals {
        steps: 0,
        commands: 0,
        depth: 0,
        over: 0,
        fault: 0,
    }
}

// Whether the struct k has a step n among those of the first rows: its own are the last ones of them, and they alone are asked.
fn listed(rows: &[u16], end: usize, k: u8, n: u8) -> bool
    requires { (Led k (rows_from rows.now 0 end)) × (end < 256) }
    ensures { result ≡ there (rows_from rows.now 0 end) k n }
{
    // A `for` over the reversed range would be no plainer: its invariant goes over what an iterator yielded.
    let mut i = end;
    while 0 < i {
        let r = row_at(rows, i - 1);
        if r.structure != u16::from(k) {
            return false;
        }
        if r.name == u16::from(n) {
            return true;
        }
        i -= 1;
    }
    false
}

// Whether the step n of the struct k is new; its row is written behind those of the steps so far.
fn noted(rows: &mut [u16], k: u8, n: u8, t: Totals, d: Done) -> bool
    requires steps_in_bounds { (row_places * (t.steps + 1) ≤ length rows.old) × (t.steps < 256) }
    requires commands_bound { (t.commands < 65536) × (d.size < 65536) }
    requires led { Led k (rows_from rows.old 0 t.steps) }
    ensures value { result ≡ not (there (rows_from rows.old 0 t.steps) k n) }
    ensures rows_after { rows.new ≡ put_row rows.old t.steps (row k n t.commands d.size) }
{
    let i = t.steps;
    let old = listed(rows, i, k, n);
    let r = Row {
        structure: u16::from(k),
        name: u16::from(n),
        start: t.commands as u16,
        size: d.size as u16,
    };
    put_row(rows, i, r);
    !old
}

// 1 where a step has too many commands or goes too deep.
fn over(before: u8, d: Done) -> u8
    ensures { result ≡ over_by before d }
{
    if types::STEP_COMMANDS < d.size || types::MAX_DEPTH < d.height {
        return 1;
    }
    before
}

// One step more.
fn plus(t: Totals, d: Done, new: bool) -> Totals
    requires { (t.steps + 1 < 2 ^ 64) × (t.commands + d.size < 2 ^ 64) }
    ensures { result ≡ plus t d new }
{
    let own = fault::worst(d.fault, fault::named(new));
    Totals {
        steps: t.steps + 1,
        commands: t.commands + d.size,
        depth: t.depth.max(d.height),
        over: over(t.over, d),
        fault: fault::worst(t.fault, own),
    }
}

// A step of the struct k.
fn step(
    s: &[u8],
    ar: &[u8],
    types: &[u8],
    rows: &mut [u16],
    k: u8,
    t: Totals,
    at: usize,
) -> TotalsRead
    requires ar_len_bound { (length ar.now ≤ max_structs) × (length s.now < 65536) × (k < max_structs) }
    requires low { Low t at × Free rows.old t 1 }
    requires led { Led k (rows_from rows.old 0 t.steps) }
    ensures told { Told (step_total ar.now types.now k (with t rows.old))
        (read_step ar.now s.now at) (numbered result) rows.new }
    ensures bounded { Bounded s.now (t.steps + 1) result }
    ensures leads { Leads k result rows.new }
{
    let (n, m) = read::ranged(s, 0, types::STEP_NAMES, at)?;
    let none = Scope { live: 0, seen: 0 };
    let names = Names { ar, types, own: k };
    let (next, d) = stmt::body(s, &names, none, m, types::IF_LEVELS)?;
    let new = noted(rows, k, n, t, d);
    Ok((next, plus(t, d, new)))
}

// The steps of the struct k.
fn of_struct(
    s: &[u8],
    ar: &[u8],
    types: &[u8],
    rows: &mut [u16],
    k: u8,
    t: Totals,
    at: usize,
) -> TotalsRead
    requires ar_len_bound { (length ar.now ≤ max_structs) × (length s.now < 65536) × (k < max_structs) }
    requires low { Low t at × Free rows.old t max_steps }
    requires led { Led k (rows_from rows.old 0 t.steps) }
    ensures told { Told (λ ts. struct_totals ar.now types.now k ts (with t rows.old))
        (read_steps ar.now s.now at) (numbered result) rows.new }
    ensures bounded { Bounded s.now (t.steps + max_steps) result }
    ensures leads { Leads k result rows.new }
{
    let (n, m) = read::ranged(s, 0, types::MAX_STEPS + 1, at)?;
    let mut all = t;
    let mut next = m;
    for i in 0..n {
        let (behind, u) = step(s, ar, types, rows, k, all, next)?;
        all = u;
        next = behind;
    }
    Ok((next, all))
}

// The steps of n structs. After a refusal the rows are free, as many as there were.
pub fn structs(
    s: &[u8],
    ar: &[u8],
    types: &[u8],
    rows: &mut [u16],
    n: u8,
    t: Totals,
    at: usize,
) -> TotalsRead
    requires ar_len_bound { (length ar.now ≤ max_structs) × (length s.now < 65536) × (n ≤ max_structs) }
    requires low { Low t at × (at ≤ length s.now) × Free rows.old t (max_steps * n) }
    requires led { Led 0 (rows_from rows.old 0 t.steps) }
    ensures told { Told (λ tss. step_totals ar.now types.now 0 tss (with t rows.old))
        (many [] ◌∷◌ (read_steps ar.now s.now) n at) (numbered result) rows.new }
    ensures bounded { Bounded s.now (t.steps + max_steps * n) result }
{
    let mut all = t;
    let mut next = at;
    for k in 0..n {
        let (behind, u) = of_struct(s, ar, types, rows, k, all, next)?;
        all = u;
        next = behind;
    }
    Ok((next, all))
}
