// The counting, by two functions that call each other: all sequences from a machine, and those whose first label is that of one holder. Each command
// taken leaves fewer, and at most 12 are held at first, so that no more than 12 calls of each are open at a time.
ghost use Rattle.std.specs.Prelude.{◌≡◌, ◌+◌, ◌-◌, ◌*◌, ◌<◌, ◌≤◌, length, get_or};
ghost use Rattle.types.specs.Limits.{nat_end, max_instances};
ghost use Rattle.layout.specs.Layout.{head_size, head_end, head, next_of, end_of, variable};
ghost use Rattle.layout.specs.State.{state_of};
ghost use Rattle.counting.specs.Counting.{commands_in, Countable, tallied, rest_tally, Tallies, Follows};

use crate::rows;
use engine::Machine;

// The parameter that is asked about, and its label.
#[derive(Clone, Copy)]
pub struct Asked {
    pub label: usize,
    pub parameter: usize,
}

// How many sequences end with it true, end with it false, and stop with 34 or 35.
#[derive(Clone, Copy)]
pub struct Tally {
    pub truths: u32,
    pub falsehoods: u32,
    pub stops: u32,
}

// How many commands instance l holds.
fn held(heads: &[u16], l: usize) -> usize
    requires { head l end_of < length heads.now }
    ensures { (result ≡ get_or heads.now (head l end_of) 0 - get_or heads.now (head l next_of) 0) × (result < head_end) }
{
    let next = layout::head(heads, l, layout::NEXT);
    let end = layout::head(heads, l, layout::END);
    end.saturating_sub(next)
}

// How many commands n instances hold.
pub fn commands(heads: &[u16], n: usize) -> usize
    requires { (head_size * n ≤ length heads.now) × (n ≤ max_instances) }
    ensures { result ≡ commands_in heads.now 0 n }
{
    let mut sum: usize = 0;
    for l in 0..n {
        sum += held(heads, l);
    }
    sum
}

// Nobody holds commands: the empty sequence, by the truth that is there.
fn resting(cells: &[u64], a: Asked) -> Tally
    requires { variable a.label a.parameter < length cells.now }
    ensures { result ≡ rest_tally (get_or cells.now (variable a.label a.parameter) 0) }
{
    let at = layout::ROW_SIZE * a.label + a.parameter;
    if layout::operand(cells[at]) == 1 {
        return Tally {
            truths: 1,
            falsehoods: 0,
            stops: 0,
        };
    }
    Tally {
        truths: 0,
        falsehoods: 1,
        stops: 0,
    }
}

// No sequence.
fn nothing() -> Tally
    ensures { result ≡ tallied 0 0 0 }
{
    Tally {
        truths: 0,
        falsehoods: 0,
        stops: 0,
    }
}

// Both together.
fn add(s: Tally, t: Tally) -> Tally
    requires { (s.truths + t.truths < nat_end) × (s.falsehoods + t.falsehoods < nat_end) × (s.stops + t.stops < nat_end) }
    ensures { result ≡ tallied (s.truths + t.truths) (s.falsehoods + t.falsehoods) (s.stops + t.stops) }
{
    Tally {
        truths: s.truths + t.truths,
        falsehoods: s.falsehoods + t.falsehoods,
        stops: s.stops + t.stops,
    }
}

// The sequences whose first label is h: none where it holds no commands; else its next command is taken, what follows is counted, and memory is put back. A
// refused command is the end of one sequence that stops, and has changed nothing.
#[cycle(all_one)]
fn one(
    machine: Machine,
    list: &[u64],
    counts: &[u8],
    heads: &mut [u16],
    cells: &mut [u64],
    h: usize,
    a: Asked,
) -> Tally
    requires countable { Countable counts.now list.now a (state_of machine.numbers heads.old cells.old) }
    requires h_lt_count { h < machine.numbers.count }
    ensures follows { Follows counts.now list.now a h (state_of machine.numbers heads.old cells.old) result }
    ensures heads_unchanged { (heads.new ≡ heads.old) × (cells.new ≡ cells.old) }
{
    if !layout::holds(heads, h) {
        return nothing();
    }
    let f = rows::fresh_row(machine.numbers.count, h);
    let saved = rows::save(list, heads, cells, h, f);
    let next = machine.command(list, counts, heads, cells, h);
    if next.numbers.number != 0 {
        return Tally {
            truths: 0,
            falsehoods: 0,
            stops: 1,
        };
    }
    let r = all(next, list, counts, heads, cells, a);
    rows::restore(heads, cells, h, f, saved);
    r
}

// All sequences from a machine: the empty one where nobody holds commands, else those of each holder.
#[cycle(all_one)]
pub fn all(
    machine: Machine,
    list: &[u64],
    counts: &[u8],
    heads: &mut [u16],
    cells: &mut [u64],
    a: Asked,
) -> Tally
    requires { Countable counts.now list.now a (state_of machine.numbers heads.old cells.old) }
    ensures tallies { Tallies counts.now list.now a (state_of machine.numbers heads.old cells.old) result }
    ensures heads_unchanged { (heads.new ≡ heads.old) × (cells.new ≡ cells.old) }
{
    if machine.numbers.holding == 0 {
        return resting(cells, a);
    }
    let n = machine.numbers.count;
    let mut sum = nothing();
    for h in 0..n {
        let more = one(machine, list, counts, heads, cells, h, a);
        sum = add(sum, more);
    }
    sum
}
