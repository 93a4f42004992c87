// The lines of a trace on lent memory (docs/FORMAT.md, 'Traces'): a turn and a move of the schedule, each made and told in one call. The bytes
// that stand in `out` then are those that `trace` defines of the machine before it and the one behind it.
#![tactic(auto)]

mod choice;
pub mod parts;
pub mod writes;

ghost use Rattle.std.specs.Prelude.{◌≡◌, List, ℕ, ◌+◌, ◌-◌, ◌*◌, ◌<◌, ◌≤◌, length, get_or};
ghost use Rattle.types.specs.Limits.{max_structs, step_names, fix_levels};
ghost use Rattle.layout.specs.Layout.{head, struct_of, end_of};
ghost use Rattle.layout.specs.State.{state_of};
ghost use Rattle.memory.specs.Act.{act};
ghost use Rattle.memory.specs.Choose.{picked};
ghost use Rattle.memory.specs.Move.{move};
ghost use Rattle.scheduler.specs.Ready.{spans_size, Movable};
ghost use Rattle.text.specs.Listing.{Placed, text};
ghost use Rattle.trace.specs.LineText.{columns, front_text};
ghost use Rattle.trace_lines.specs.Parts.{BackFits, front_most, back_most, line_most, position_of, step_at, back_text, move_text};
ghost use Rattle.trace_lines.specs.Told.{Turnable, TurnTold, MoveTold};

use crate::choice::picked_of;
use crate::parts::{entries, stack};
use crate::writes::{Write, target, written};
use engine::Machine;
use layout::{Numbers, codes};
use text::lines::column;

// A turn that comes: the machine, the step that runs, the turns taken before it, and its byte.
#[derive(Clone, Copy)]
pub struct Coming {
    pub machine: Machine,
    pub step: usize,
    pub taken: usize,
    pub byte: u8,
}

// What stands before the stack: turn, byte, label, struct, step, position and command.
#[derive(Clone, Copy)]
pub struct Acting {
    pub taken: usize,
    pub byte: u8,
    pub label: usize,
    pub structure: usize,
    pub step: usize,
    pub position: usize,
    pub word: u64,
}

// The machine behind an act, the step that runs then, and how long the line is: 0 where the command was refused.
#[derive(Clone, Copy)]
pub struct Told {
    pub machine: Machine,
    pub step: usize,
    pub length: usize,
}

// The position of instance l's next command among those of the step.
fn position(spans: &[u16], heads: &[u16], l: usize, step: usize) -> usize
    requires spans_size_in_bounds { (spans_size ≤ length spans.now) × (head l end_of < length heads.now) }
    requires struct_of_bound { (get_or heads.now (head l struct_of) 0 < max_structs) × (step < step_names) }
    ensures { result ≡ position_of spans.now heads.now l step }
{
    let at = layout::HEAD_SIZE * l;
    let k = heads[at + layout::STRUCT] as usize;
    let s = 2 * (types::STEP_NAMES * k + step);
    let size = spans[s + 1].saturating_sub(spans[s]);
    let left = heads[at + layout::END].saturating_sub(heads[at + layout::NEXT]);
    usize::from(size.saturating_sub(left))
}

// Three numbers, a space behind each.
fn columns(out: &mut [u8], k: usize, a: u64, b: u64, c: u64) -> usize
    requires { k + 63 ≤ length out.old }
    ensures placed { Placed (columns a b c) out.old k result out.new }
    ensures upper_bound { result ≤ k + 63 }
{
    let i = column(out, k, a);
    let j = column(out, i, b);
    column(out, j, c)
}

// The line up to the stack.
fn front(out: &mut [u8], f: Acting) -> usize
    requires { front_most ≤ length out.old }
    ensures placed { Placed (front_text f.taken f.byte f.label f.structure f.step f.position (text f.word)) out.old 0 result
        out.new }
    ensures upper_bound { result ≤ front_most }
{
    let a = columns(out, 0, f.taken as u64, f.byte as u64, f.label as u64);
    let b = columns(out, a, f.structure as u64, f.step as u64, f.position as u64);
    let c = text::command(out, b, f.word);
    text::put(out, c, b" [")
}

// The line from the stack on, behind the command of instance l.
fn back(
    out: &mut [u8],
    k: usize,
    l: usize,
    w: Option<Write>,
    numbers: Numbers,
    heads: &[u16],
    cells: &[u64],
) -> usize
    requires back_fits { BackFits heads.now cells.now l w numbers.fixes }
    requires back_most_in_bounds { k + back_most ≤ length out.old }
    ensures placed { Placed (back_text heads.now cells.now l w numbers.fixes numbers.stable) out.old k result
        out.new }
    ensures upper_bound { result ≤ k + back_most }
{
    let a = stack(out, k, heads, cells, l);
    let b = text::put(out, a, b" ]");
    let c = written(out, b, w, cells);
    let d = entries(out, c, numbers.fixes, numbers.stable);
    text::put(out, d, b"\n")
}

// The byte picks a holder, which takes its next command.
pub fn turn(
    turn: Coming,
    list: &[u64],
    counts: &[u8],
    spans: &[u16],
    heads: &mut [u16],
    cells: &mut [u64],
    out: &mut [u8],
) -> Told
    requires turnable { Turnable counts.now list.now spans.now turn.step (state_of turn.machine.numbers heads.old cells.old) }
    requires line_most_in_bounds { line_most ≤ length out.old }
    ensures cells_after { state_of result.machine.numbers heads.new cells.new ≡ act list.now counts.now
        (picked heads.old turn.machine.numbers.from turn.machine.numbers.count turn.byte)
        (state_of turn.machine.numbers heads.old cells.old) }
    ensures turn_told { TurnTold counts.now list.now spans.now turn
        (state_of turn.machine.numbers heads.old cells.old) result.length out.new }
    ensures length_le_line_most { result.length ≤ line_most }
{
    let machine = turn.machine;
    let numbers = machine.numbers;
    let count = numbers.count;
    let l = picked_of(heads, count, numbers.from, numbers.holding, turn.byte);
    let w = target(list, counts, heads, cells, l);
    let at = layout::HEAD_SIZE * l;
    let next = heads[at + layout::NEXT] as usize;
    let f = Acting {
        taken: turn.taken,
        byte: turn.byte,
        label: l,
        structure: heads[at + layout::STRUCT] as usize,
        step: turn.step,
        position: position(spans, heads, l, turn.step),
        word: list[next],
    };
    let k = front(out, f);
    let behind = machine.command(list, counts, heads, cells, l);
    let after = behind.numbers;
    if after.number != 0 {
        return Told {
            machine: behind,
            step: turn.step,
            length: 0,
        };
    }
    let n = back(out, k, l, w, after, heads, cells);
    Told {
        machine: behind,
        step: turn.step,
        length: n,
    }
}

// The step that runs behind a move from an item: the one that it starts, or the one before.
fn step_at(item: usize, step: usize) -> usize
    ensures { result ≡ step_at step item }
{
    if item < codes::FIX {
        item % types::STEP_NAMES
    } else {
        step
    }
}

// The line of a move, with the entries behind it.
fn moved(out: &mut [u8], numbers: Numbers) -> usize
    requires { (numbers.fixes ≤ fix_levels) × (line_most ≤ length out.old) }
    ensures placed { Placed (move_text numbers.fixes numbers.stable) out.old 0 result out.new }
    ensures upper_bound { result ≤ line_most }
{
    let a = text::put(out, 0, b"move");
    let b = entries(out, a, numbers.fixes, numbers.stable);
    text::put(out, b, b"\n")
}

// One move of the schedule, where no instance holds commands.
pub fn advance(
    machine: Machine,
    step: usize,
    items: &[usize],
    spans: &[u16],
    heads: &mut [u16],
    out: &mut [u8],
) -> Told
    requires movable { Movable items.now spans.now heads.old machine.numbers }
    requires fixes_le_fix_levels { (machine.numbers.fixes ≤ fix_levels) × (line_most ≤ length out.old) }
    requires step_lt_step_names { step < step_names }
    ensures by_index { (cells : List ℕ) → state_of result.machine.numbers heads.new cells ≡ move items.now spans.now
        (state_of machine.numbers heads.old cells) }
    ensures by_index_2 { (cells : List ℕ) → MoveTold items.now spans.now step (state_of machine.numbers heads.old cells)
        result.step result.length out.new }
    ensures step_lt_step_names_2 { (result.step < step_names) × (result.length ≤ line_most) }
{
    let numbers = machine.numbers;
    let place = numbers.place;
    let now = step_at(items[place], step);
    let behind = machine.advance(items, spans, heads);
    let after = behind.numbers;
    let n = moved(out, after);
    Told {
        machine: behind,
        step: now,
        length: n,
    }
}
