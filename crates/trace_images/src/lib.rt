// The trace of a run on images (docs/FORMAT.md, 'Traces'), a page at a time: a program image, a table image and turn bytes to the number and the turns of
// the run and the length of its trace's text; of the text the bytes from a place on, as many as the output holds. A call makes the run anew: nothing is
// kept between pages.
#![tactic(auto)]

mod pages;
mod telling;

ghost use Rattle.std.specs.Prelude.{◌≡◌, ◌*◌, length};
ghost use Rattle.types.specs.Limits.{max_instances};
ghost use Rattle.types.specs.Refusals.{numbered};
ghost use Rattle.layout.specs.Layout.{head_size, row_size};
ghost use Rattle.seating.specs.Seated.{Opening, SeatsTable};
ghost use Rattle.trace.specs.TraceText.{trace_text};
ghost use Rattle.trace.specs.TracePage.{traced_number, traced_turns, paged};
ghost use Rattle.trace_images.specs.Pages.{traced, Begins};

use crate::pages::{ended, refused};
use crate::telling::{Start, play};
use directory::rows::ROWS;
use seating::{Opened, Seat};
use table_read::Parameters;
use types::refusal::Refusal;

// What is answered: the number and the turns of the run, how many bytes its trace's text has, and how many of them were written.
#[derive(Clone, Copy)]
pub struct Traced {
    pub number: u8,
    pub turns: u32,
    pub length: usize,
    pub count: usize,
}

// The machine that a table image begins with (9 to 12), in memory that is given back before the run asks for its own.
fn seated(
    at: usize,
    p: Parameters,
    table: &[u8],
    heads: &mut [u16],
    cells: &mut [u64],
) -> Result<Seat, Refusal>
    requires heads_len { (length heads.old ≡ head_size * max_instances) × (length cells.old ≡ row_size * max_instances) }
    ensures { SeatsTable at p.entry.counts.now p.entry.types.now table.now (numbered result) heads.new cells.new }
{
    let mut rows = [0u8; types::TABLE_BLOCKS * blocks::PAYLOAD_SIZE];
    seating::seat_table(at, p, table, &mut rows, heads, cells)
}

// After an accepted program: 9 to 12 and 14 in order, or a run that is told.
fn begun(
    o: &Opened,
    s: &[u8],
    rows: &[u16],
    table: &[u8],
    turns: &[u8],
    from: usize,
    out: &mut [u8],
) -> Traced
    requires { Opening o.now s.now rows.now }
    ensures { Begins o.now s.now rows.now table.now turns.now from out.old result out.new }
{
    let p = seating::parameters(o);
    let mut heads = [0u16; layout::HEADS];
    let mut cells = [0u64; layout::CELLS];
    let seat = match seated(o.loaded.at, p, table, &mut heads, &mut cells) {
        Ok(seat) => seat,
        Err(refusal) => return refused(u8::from(refusal), from, out),
    };
    if types::MAX_TURNS < turns.len() {
        return refused(u8::from(Refusal::ManyTurns), from, out);
    }
    let opened = *o;
    let start = Start { opened, seat, from };
    let r = play(s, rows, start, &mut heads, &mut cells, turns, out);
    let last = r.coming;
    ended(r.page, r.number, last.taken, out)
}

// 1 to 12 and 14 in order, or a run that is told; of the text what lies from a place on, as much as the output holds. Of what is refused the text is its
// last line.
pub fn trace(program: &[u8], table: &[u8], turns: &[u8], from: usize, out: &mut [u8]) -> Traced
    ensures value { result ≡ traced (traced_number program.now table.now turns.now)
        (traced_turns program.now table.now turns.now)
        (trace_text program.now table.now turns.now) from (length out.old) }
    ensures out_after { out.new ≡ paged from (trace_text program.now table.now turns.now) out.old }
{
    let mut stream = [0u8; seating::SHORT];
    let mut rows = [0u16; ROWS];
    // 1 to 8
    let o = match seating::open_program(program, &mut stream, &mut rows) {
        Ok(o) => o,
        Err(refusal) => return refused(u8::from(refusal), from, out),
    };
    let n = o.loaded.length;
    begun(&o, &stream[..n], &rows, table, turns, from, out)
}
