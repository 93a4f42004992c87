// What a command writes: the parameter that a `wr` has for its target, with its value before and behind it.
ghost use Rattle.std.specs.Prelude.{◌≡◌, ◌+◌, ◌≤◌, length};
ghost use Rattle.text.specs.Listing.{Placed};
ghost use Rattle.trace_lines.specs.Parts.{WriteFits, Fitting, place_text, values_text, write_most, write_text, target};

use crate::parts::worth;

// The kind of a `wr` as its word has it.
const WR: u64 = 4;

// A parameter that is written: its label and number, and its cell before.
#[derive(Clone, Copy)]
pub struct Write {
    pub label: usize,
    pub variable: usize,
    pub old: u64,
}

// What the next command of instance l will write: nothing, but where it is a `wr` of a parameter of an instance that is not null.
pub(crate) fn target(
    list: &[u64],
    counts: &[u8],
    heads: &[u16],
    cells: &[u64],
    l: usize,
) -> Option<Write>
    requires { Fitting list.now counts.now heads.now cells.now l }
    ensures { result ≡ target list.now (length counts.now) heads.now cells.now l }
{
    let at = layout::HEAD_SIZE * l;
    let next = heads[at + layout::NEXT] as usize;
    let w = list[next];
    if w % 256 != WR {
        return None;
    }
    let x = layout::operand(w) as usize;
    if types::FIRST_LOCAL <= x {
        return None;
    }
    let under = heads[at + layout::HEIGHT] as usize - 1;
    let top = cells[layout::ROW_SIZE * l + types::VARIABLES + under];
    let q = layout::operand(top) as usize;
    if q < counts.len() {
        return None;
    }
    Some(Write {
        label: q,
        variable: x,
        old: cells[layout::ROW_SIZE * q + x],
    })
}

// The label and the number of a parameter.
fn place(out: &mut [u8], k: usize, q: usize, x: usize) -> usize
    requires { k + 42 ≤ length out.old }
    ensures placed { Placed (place_text q x) out.old k result out.new }
    ensures upper_bound { result ≤ k + 42 }
{
    let a = text::put(out, k, b" ");
    let b = text::decimal(out, a, q as u64);
    let c = text::put(out, b, b".");
    text::decimal(out, c, x as u64)
}

// A parameter that was written: its place, its value before and its value now.
pub(crate) fn written(out: &mut [u8], k: usize, write: Option<Write>, cells: &[u64]) -> usize
    requires write_fits { WriteFits cells.now write }
    requires write_most_in_bounds { k + write_most ≤ length out.old }
    ensures placed { Placed (write_text cells.now write) out.old k result out.new }
    ensures upper_bound { result ≤ k + write_most }
{
    match write {
        None => k,
        Some(w) => {
            let now = cells[layout::ROW_SIZE * w.label + w.variable];
            let a = place(out, k, w.label, w.variable);
            let b = text::put(out, a, b" ");
            let c = worth(out, b, w.old);
            let d = text::put(out, c, b" ");
            worth(out, d, now)
        }
    }
}
