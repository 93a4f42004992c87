// A run that is told (01, 'Table and turns'): the loops of moves and turns, with the line of each on the page.
ghost use Rattle.std.specs.Prelude.{◌≡◌, ◌+◌, ◌^◌, ◌<◌, ◌≤◌, length};
ghost use Rattle.types.specs.Limits.{step_names, max_turns};
ghost use Rattle.interpreter.specs.Running.{Standing};
ghost use Rattle.trace_lines.specs.Parts.{line_most};
ghost use Rattle.trace_images.specs.Telling.{first_of, rests, told_at, behind, items_most, settle_most};
ghost use Rattle.trace_images.specs.Telling.{Moveable, Moves, Settles, Takeable, Takes, Starting, Plays};

use crate::pages::{LINE, Page, blank, put};
use compile::items::CODES;
use compile::spans::SPANS;
use engine::Machine;
use layout::codes;
use seating::{Opened, Seat};
use trace_lines::Coming;

// An accepted program, a machine that is seated beside it, and where the page begins in the text of its run.
#[derive(Clone, Copy)]
pub(crate) struct Start {
    pub opened: Opened,
    pub seat: Seat,
    pub from: usize,
}

// A run between two acts: its machine, the step that runs, the turns taken and the byte that comes next; the number that it stops with, and whether
// a turn is due; the page of its text.
#[derive(Clone, Copy)]
pub(crate) struct Telling {
    pub coming: Coming,
    pub number: u8,
    pub due: bool,
    pub page: Page,
}

// Before the first act.
fn first(start: Start) -> Telling
    ensures { result ≡ first_of start }
{
    let numbers = start.seat.numbers;
    let machine = Machine { numbers };
    let coming = Coming {
        machine,
        step: 0,
        taken: 0,
        byte: 0,
    };
    let page = blank(start.from);
    Telling {
        coming,
        number: 0,
        due: false,
        page,
    }
}

// No turn is due: nobody holds commands, or the run stops with a number.
fn resting(s: Telling, number: u8) -> Telling
    ensures { result ≡ rests s number }
{
    let coming = s.coming;
    let page = s.page;
    Telling {
        coming,
        number,
        due: false,
        page,
    }
}

// A turn is due, or nobody holds commands, or no byte is left.
fn told_at(s: Telling, turns: &[u8]) -> Telling
    ensures { result ≡ told_at turns.now s }
{
    let mut coming = s.coming;
    if !layout::due(coming.machine.numbers) {
        return resting(s, 0);
    }
    let taken = coming.taken;
    if turns.len() <= taken {
        return resting(s, types::refusal::Refusal::OutOfTurns as u8);
    }
    coming.byte = turns[taken];
    let page = s.page;
    Telling {
        coming,
        number: 0,
        due: true,
        page,
    }
}

// After an act, in a step after so many turns.
fn behind(machine: Machine, step: usize, taken: usize, page: Page) -> Telling
    ensures { result ≡ behind machine step taken page }
{
    let coming = Coming {
        machine,
        step,
        taken,
        byte: 0,
    };
    Telling {
        coming,
        number: machine.numbers.number,
        due: false,
        page,
    }
}

// A move of the schedule, with its line.
fn moved(s: Telling, items: &[usize], spans: &[u16], heads: &mut [u16], out: &mut [u8]) -> Telling
    requires moveable { Moveable items.now spans.now heads.old s }
    requires line_most_bound { s.page.length + line_most < 2 ^ 64 }
    ensures { Moves items.now spans.now s heads.old out.old result heads.new out.new }
{
    let coming = s.coming;
    let machine = coming.machine;
    let mut line = [0u8; LINE];
    let made = trace_lines::advance(machine, coming.step, items, spans, heads, &mut line);
    let next = made.machine;
    let n = made.length;
    let page = put(s.page, &line[..n], out);
    behind(next, made.step, coming.taken, page)
}

// The moves of the schedule until some instance holds commands, each with its line.
fn settle(s: Telling, items: &[usize], spans: &[u16], heads: &mut [u16], out: &mut [u8]) -> Telling
    requires standing { Standing items.now spans.now heads.old s.coming.machine.numbers × (s.coming.step < step_names) }
    requires len_bound { (length items.now ≤ items_most) × (s.page.length + settle_most < 2 ^ 64) }
    ensures { Settles items.now spans.now s heads.old out.old result heads.new out.new }
{
    let mut next = s;
    while !layout::due(next.coming.machine.numbers) {
        let place = next.coming.machine.numbers.place;
        if items[place] == codes::END {
            return next;
        }
        next = moved(next, items, spans, heads, out);
    }
    next
}

// A turn, with its line. A refused one has none, is not counted, and stops the run with its number.
fn turn(
    s: Telling,
    list: &[u64],
    counts: &[u8],
    spans: &[u16],
    heads: &mut [u16],
    cells: &mut [u64],
    out: &mut [u8],
) -> Telling
    requires takeable { Takeable counts.now list.now spans.now s heads.old cells.old }
    requires line_most_bound { s.page.length + line_most < 2 ^ 64 }
    ensures { Takes counts.now list.now spans.now s heads.old cells.old out.old result
        heads.new cells.new out.new }
{
    let coming = s.coming;
    let mut line = [0u8; LINE];
    let made = trace_lines::turn(coming, list, counts, spans, heads, cells, &mut line);
    let next = made.machine;
    if next.numbers.number != 0 {
        return behind(next, coming.step, coming.taken, s.page);
    }
    let n = made.length;
    let page = put(s.page, &line[..n], out);
    behind(next, coming.step, coming.taken + 1, page)
}

// The run of a machine that is seated, told: the lines of its trace are on the page, as far as they lie there.
pub(crate) fn play(
    s: &[u8],
    rows: &[u16],
    start: Start,
    heads: &mut [u16],
    cells: &mut [u64],
    turns: &[u8],
    out: &mut [u8],
) -> Telling
    requires starting { Starting s.now rows.now start heads.old cells.old }
    requires turns_len_bound { length turns.now ≤ max_turns }
    ensures { Plays s.now rows.now start heads.old cells.old turns.now out.old result
        out.new }
{
    let opened = start.opened;
    let counts = opened.counts;
    let p = opened.loaded;
    let k = p.structs as usize;
    let cs = &counts[..k];
    let mut list = [0u64; types::MAX_COMMANDS];
    let mut spans = [0u16; SPANS];
    let mut items = [0usize; CODES];
    compile::program(s, p.plan, k, rows, p.steps as usize, &mut spans, &mut items);
    let seat = start.seat;
    emit_steps::program(s, cs, seat.at, &mut list);
    let begun = settle(first(start), &items, &spans, heads, out);
    let mut next = told_at(begun, turns);
    while next.due {
        next = turn(next, &list, cs, &spans, heads, cells, out);
        if next.number == 0 {
            let settled = settle(next, &items, &spans, heads, out);
            next = told_at(settled, turns);
        }
    }
    next
}
