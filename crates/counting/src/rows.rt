// What one command changes of memory, kept beside it and put back (02 §14).
ghost use Rattle.std.specs.Prelude.{◌≡◌, ◌+◌, ◌*◌, ◌<◌, ◌≤◌, length};
ghost use Rattle.types.specs.Limits.{max_instances};
ghost use Rattle.layout.specs.Layout.{head_size, row_size};
ghost use Rattle.counting.specs.Framed.{Fitting, fresh_row, stored_at, Saves, Sized, restored_heads, restored_cells};

use crate::copies;
use commands::kind;

// The numbers and cells of the actor and of the row after the last instance, and one cell with its place.
#[derive(Clone, Copy)]
pub struct Saved {
    pub actor: [u16; layout::HEAD_SIZE],
    pub fresh: [u16; layout::HEAD_SIZE],
    pub row: [u64; layout::ROW_SIZE],
    pub other: [u64; layout::ROW_SIZE],
    pub at: usize,
    pub cell: u64,
}

// The row that a new instance would get; where there is no label left, that of the actor.
pub(crate) fn fresh_row(count: usize, l: usize) -> usize
    ensures { result ≡ fresh_row count l }
{
    if count < types::MAX_INSTANCES {
        count
    } else {
        l
    }
}

// The place that the next command of instance l stores a variable at, if it is a wr; else one in its own row.
fn stored_at(list: &[u64], heads: &[u16], cells: &[u64], l: usize) -> usize
    requires { Fitting list.now heads.now cells.now l }
    ensures { (result ≡ stored_at list.now heads.now cells.now l) × (result < length cells.now) }
{
    let next = layout::head(heads, l, layout::NEXT);
    let w = list[next];
    if w % 256 != kind::WR {
        return layout::ROW_SIZE * l;
    }
    let h = layout::head(heads, l, layout::HEIGHT);
    let top = cells[layout::ROW_SIZE * l + types::VARIABLES + (h - 1)];
    layout::ROW_SIZE * (layout::operand(top) as usize) + layout::operand(w) as usize
}

// What the next command of instance l may change, with f the row that a new instance would get.
pub(crate) fn save(list: &[u64], heads: &[u16], cells: &[u64], l: usize, f: usize) -> Saved
    requires { (Fitting list.now heads.now cells.now l) × (f < max_instances) }
    ensures { (Saves heads.now cells.now l f (stored_at list.now heads.now cells.now l) result)
        × (result.at < length cells.now) }
{
    let at = stored_at(list, heads, cells, l);
    let actor = copies::part(heads, l);
    let fresh = copies::part(heads, f);
    let row = copies::part(cells, l);
    let other = copies::part(cells, f);
    let cell = cells[at];
    Saved {
        actor,
        fresh,
        row,
        other,
        at,
        cell,
    }
}

// It is put back.
pub(crate) fn restore(heads: &mut [u16], cells: &mut [u64], l: usize, f: usize, s: Saved)
    requires l_lt_max_instances { (l < max_instances) × (f < max_instances) × (s.at < length cells.old) × (Sized s) }
    requires heads_len { (length heads.old ≡ head_size * max_instances) × (length cells.old ≡ row_size * max_instances) }
    ensures { (heads.new ≡ restored_heads heads.old l f s) × (cells.new ≡ restored_cells cells.old l f s) }
{
    let actor = s.actor;
    let fresh = s.fresh;
    let row = s.row;
    let other = s.other;
    let at = s.at;
    copies::write(heads, layout::HEAD_SIZE * f, &fresh);
    copies::write(heads, layout::HEAD_SIZE * l, &actor);
    copies::write(cells, layout::ROW_SIZE * f, &other);
    copies::write(cells, layout::ROW_SIZE * l, &row);
    cells[at] = s.cell;
}
