// How many orders of a step end in which way (02 §14): a program image, a table image, a step name, a label and a parameter to a number and three counts; the
// commands to the lent list, as a run leaves them there.
#![tactic(auto)]

ghost use Rattle.std.specs.Prelude.{◌≡◌, ◌≤◌, ◌<◌, length, IfOk};
ghost use Rattle.types.specs.Limits.{max_structs, step_names};
ghost use Rattle.scheduler.specs.Ready.{spans_size};
ghost use Rattle.seating.specs.Seated.{Opening};
ghost use Rattle.counts.specs.CountEntry.{counted, count, count_list};
ghost use Rattle.count_images.specs.Asking.{Compilable, Compiled, has_step, Askable, place_number};
ghost use Rattle.count_images.specs.Answers.{answer, why, settled, Questionable, Questioned, Begins};

use compile::items::CODES;
use compile::spans::SPANS;
use counting::count::{Asked, all, commands};
use directory::rows::ROWS;
use engine::Machine;
use scheduler::begin::begin_all;
use scheduler::count::holding;
use seating::{Opened, Seat};
use table_read::Parameters;
use types::refusal::Refusal;

// Commands that a step may have over all its instances.
const MOST: usize = 12;

// What a count answers: the number, and how many sequences end with the parameter true, end with it false, and stop with 34 or 35.
#[derive(Clone, Copy)]
pub struct Counts {
    pub number: u8,
    pub truths: u32,
    pub falsehoods: u32,
    pub stops: u32,
}

// What is asked: a step name, a label and a parameter.
#[derive(Clone, Copy)]
pub struct Question {
    pub name: usize,
    pub label: usize,
    pub parameter: usize,
}

// What is asked of a machine that is seated beside a program, whose schedule begins at a place and which has so many steps.
#[derive(Clone, Copy)]
pub struct Asking {
    pub seat: Seat,
    pub question: Question,
    pub plan: usize,
    pub steps: usize,
}

// An input refusal: three zeros.
fn refused(number: u8) -> Counts
    ensures { result ≡ answer (counted number 0 0 0) }
{
    Counts {
        number,
        truths: 0,
        falsehoods: 0,
        stops: 0,
    }
}

// What a count answers that was made or was refused.
fn settled(r: Result<Counts, Refusal>) -> Counts
    ensures { result ≡ settled r }
{
    match r {
        Ok(counts) => counts,
        Err(refusal) => refused(u8::from(refusal)),
    }
}

// The commands of a program into a list, and where each step's stand there.
fn prepared(s: &[u8], counts: &[u8], rows: &[u16], a: Asking, list: &mut [u64], spans: &mut [u16])
    requires { Compilable s.now counts.now rows.now a list.old spans.old }
    ensures { Compiled s.now counts.now a.seat.at list.old list.new spans.new }
{
    let mut items = [0usize; CODES];
    compile::program(s, a.plan, counts.len(), rows, a.steps, spans, &mut items);
    emit_steps::program(s, counts, a.seat.at, list);
}

// Whether one of the structs has the step.
fn has_step(spans: &[u16], structs: usize, name: usize) -> bool
    requires { (spans_size ≤ length spans.now) × (structs ≤ max_structs) × (name < step_names) }
    ensures { result ≡ has_step spans.now name 0 structs }
{
    for k in 0..structs {
        let at = 2 * (types::STEP_NAMES * k + name);
        if spans[at] <= spans[at + 1] {
            return true;
        }
    }
    false
}

// 21 where the label or its parameter is not there, 8 where it is no Bool.
fn placed(heads: &[u16], p: Parameters, count: usize, q: Question) -> Result<(), Refusal>
    requires { Askable heads.now p.counts.now p.types.now count }
    ensures { why result ≡ place_number heads.now p.entry.counts.now p.entry.types.now count q.label q.parameter }
{
    if count <= q.label {
        return Err(Refusal::Absent);
    }
    let k = layout::head(heads, q.label, layout::STRUCT);
    if p.counts[k] as usize <= q.parameter {
        return Err(Refusal::Absent);
    }
    let at = types::MAX_PARAMS * k + q.parameter;
    if p.types[at] != types::BOOL {
        return Err(Refusal::WrongTypes);
    }
    Ok(())
}

// 7, 21, 8 and 24 in order, or the counts: the step is started on the memory of a seated table, whose commands are written into a list of its own, so that the
// lent one is untouched where the input is refused.
fn answered(
    s: &[u8],
    p: Parameters,
    rows: &[u16],
    a: Asking,
    heads: &mut [u16],
    cells: &mut [u64],
) -> Result<Counts, Refusal>
    requires { Questionable s.now p.counts.now p.types.now rows.now a heads.old cells.old }
    ensures questioned { Questioned s.now p.entry.counts.now p.entry.types.now rows.now a heads.old cells.old (settled result) }
    ensures counted { IfOk result (λ c. c.number ≡ 0) }
{
    let mut list = [0u64; types::MAX_COMMANDS];
    let mut spans = [0u16; SPANS];
    prepared(s, p.counts, rows, a, &mut list, &mut spans);
    let q = a.question;
    // 7
    if types::STEP_NAMES <= q.name {
        return Err(Refusal::WrongNames);
    }
    if !has_step(&spans, p.counts.len(), q.name) {
        return Err(Refusal::WrongNames);
    }
    // 21 and 8
    let mut numbers = a.seat.numbers;
    placed(heads, p, numbers.count, q)?;
    begin_all(&spans, heads, q.name, numbers.count);
    // 24
    if MOST < commands(heads, numbers.count) {
        return Err(Refusal::ManyCommands);
    }
    numbers.holding = holding(heads, numbers.count);
    let asked = Asked {
        label: q.label,
        parameter: q.parameter,
    };
    let t = all(Machine { numbers }, &list, p.counts, heads, cells, asked);
    Ok(Counts {
        number: 0,
        truths: t.truths,
        falsehoods: t.falsehoods,
        stops: t.stops,
    })
}

// After an accepted program: 9 to 12, 13, and what is asked; the commands are written into the lent list where it is answered.
fn begun(
    o: &Opened,
    s: &[u8],
    rows: &[u16],
    table: &[u8],
    q: Question,
    list: &mut [u64],
) -> Result<Counts, Refusal>
    requires { Opening o.now s.now rows.now }
    ensures { Begins o.now s.now rows.now table.now q list.old (settled result) list.new }
{
    let l = o.loaded;
    let p = seating::parameters(o);
    let mut buffer = [0u8; types::TABLE_BLOCKS * blocks::PAYLOAD_SIZE];
    let mut heads = [0u16; layout::HEADS];
    let mut cells = [0u64; layout::CELLS];
    // 9 to 12
    let seat = seating::seat_table(l.at, p, table, &mut buffer, &mut heads, &mut cells)?;
    // 13
    if list.len() < types::MAX_COMMANDS {
        return Err(Refusal::NoRoom);
    }
    let a = Asking {
        seat,
        question: q,
        plan: l.plan,
        steps: l.steps as usize,
    };
    let counts = answered(s, p, rows, a, &mut heads, &mut cells)?;
    emit_steps::program(s, p.counts, seat.at, list);
    Ok(counts)
}

// A program image, a table image, a step name, a label and a parameter: 1 to 8, 9 to 12, 13, 7, 21, 8 and 24 in order, or the three counts.
pub fn count(
    program: &[u8],
    table: &[u8],
    name: u32,
    label: u32,
    parameter: u32,
    list: &mut [u64],
) -> Counts
    ensures value { result ≡ answer (count program.now table.now name label parameter list.old) }
    ensures list_after { list.new ≡ count_list program.now table.now name label parameter list.old }
{
    let mut stream = [0u8; seating::SHORT];
    let mut rows = [0u16; ROWS];
    // 1 to 8
    let o = match seating::open_program(program, &mut stream, &mut rows) {
        Ok(o) => o,
        Err(refusal) => return refused(u8::from(refusal)),
    };
    let n = o.loaded.length;
    let q = Question {
        name: name as usize,
        label: label as usize,
        parameter: parameter as usize,
    };
    settled(begun(&o, &stream[..n], &rows, table, q, list))
}
