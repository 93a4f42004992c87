// The whole list of turn bytes: one command for each, and the schedule's moves between them (01, 'Table and turns').
ghost use Rattle.std.specs.Prelude.{◌≡◌, false, ◌+◌, ◌<◌, length};
ghost use Rattle.layout.specs.State.{state_of};
ghost use Rattle.memory.specs.Fit.{Fit};
ghost use Rattle.interpreter.specs.Going.{rests, going_at, memory_of, Takes, Turning, Passes};
ghost use Rattle.interpreter.specs.Running.{Begun, Ending};

use crate::moving::settle;
use engine::Machine;
use holders::{Record, holder, records};

// Where a run ends: the machine, the number (0, or 33 to 35), and the turns taken.
#[derive(Clone, Copy)]
pub struct Ran {
    pub machine: Machine,
    pub number: u8,
    pub taken: usize,
}

// A run between two turns: its machine, the turns taken, the number that it stops with, which of the holders the byte of the next turn
// picks, where a turn is due, and the record of the instance that acted last.
// The number is 0 or a refusal's, as in the machine: `layout/specs/State.antt` defines that state with a number.
#[derive(Clone, Copy)]
pub struct Going {
    pub machine: Machine,
    pub taken: usize,
    pub number: u8,
    pub pick: Option<usize>,
    pub actor: Record,
}

// No turn is due: nobody holds commands, or the run stops with a number.
fn resting(machine: Machine, taken: usize, actor: Record, number: u8) -> Going
    ensures { result ≡ rests machine taken actor number }
{
    Going {
        machine,
        taken,
        number,
        pick: None,
        actor,
    }
}

// The run behind so many turns: a turn is due, or nobody holds commands, or no byte is left.
fn going_at(machine: Machine, taken: usize, actor: Record, turns: &[u8]) -> Going
    ensures { result ≡ going_at turns.now machine taken actor }
{
    if !layout::due(machine.numbers) {
        return resting(machine, taken, actor, machine.numbers.number);
    }
    if turns.len() <= taken {
        return resting(
            machine,
            taken,
            actor,
            types::refusal::Refusal::OutOfTurns as u8,
        );
    }
    let e = usize::from(turns[taken]);
    Going {
        machine,
        taken,
        number: 0,
        pick: Some(e % machine.numbers.holding),
        actor,
    }
}

// A turn: instance l takes its next command. A refused one stops the run with its number.
fn turn(
    s: Going,
    l: usize,
    list: &[u64],
    counts: &[u8],
    heads: &mut [u16],
    cells: &mut [u64],
    turns: &[u8],
) -> Going
    requires { Fit list.now counts.now l (memory_of s heads.old cells.old) × (0 < s.machine.numbers.holding) × (s.taken < length turns.now) }
    ensures { Takes list.now counts.now turns.now l s heads.old cells.old result
        heads.new cells.new }
{
    let before = s.machine;
    let machine = before.command(list, counts, heads, cells, l);
    let number = machine.numbers.number;
    if number != 0 {
        return resting(machine, s.taken, s.actor, number);
    }
    let holds = layout::holds(heads, l);
    going_at(machine, s.taken + 1, Record { holds }, turns)
}

// The turns that are due: each byte's actor is searched for among the records, which this loop lends, and its record is written anew.
fn take_turns(
    s: Going,
    rs: [Record; types::MAX_INSTANCES],
    list: &[u64],
    counts: &[u8],
    heads: &mut [u16],
    cells: &mut [u64],
    turns: &[u8],
) -> Going
    requires { Turning list.now counts.now turns.now s rs heads.old cells.old }
    ensures { Passes list.now counts.now turns.now s heads.old cells.old result
        heads.new cells.new }
{
    let mut next = s;
    let mut known = rs;
    while let Some(pick) = next.pick {
        let l = holder(
            &known,
            next.machine.numbers.count,
            next.machine.numbers.from,
            pick,
        );
        next = turn(next, l, list, counts, heads, cells, turns);
        known[l] = next.actor;
    }
    next
}

// What a run reads of a program: its commands, the parameter count of each struct, its schedule laid flat, and where the commands of each step
// stand.
#[derive(Clone, Copy)]
pub struct Program<'a> {
    pub list: &'a [u64],
    pub counts: &'a [u8],
    pub items: &'a [usize],
    pub spans: &'a [u16],
}

// A run of a machine with these turn bytes. Memory and the machine's numbers are free up to the machine that they stand for with their number
// taken out: that is the machine that the run comes to. Number and turns are the run's.
pub fn run(
    machine: Machine,
    program: &Program,
    heads: &mut [u16],
    cells: &mut [u64],
    turns: &[u8],
) -> Ran
    requires { Begun program.now.counts.now program.now.list.now program.now.items.now program.now.spans.now
        (state_of machine.numbers heads.old cells.old) }
    ensures { Ending program.now.counts.now program.now.list.now program.now.items.now program.now.spans.now turns.now
        (state_of machine.numbers heads.old cells.old) result.number result.taken
        (state_of result.machine.numbers heads.new cells.new) }
{
    let nobody = Record { holds: false };
    let settled = settle(machine, program.items, program.spans, heads);
    let mut next = going_at(settled, 0, nobody, turns);
    'passages: while next.pick.is_some() {
        let rs = records(heads, next.machine.numbers.count);
        next = take_turns(next, rs, program.list, program.counts, heads, cells, turns);
        if next.number == 0 {
            let still = next.machine;
            let moved = settle(still, program.items, program.spans, heads);
            next = going_at(moved, next.taken, nobody, turns);
        }
    }
    let last = next.machine;
    Ran {
        machine: last,
        number: next.number,
        taken: next.taken,
    }
}
