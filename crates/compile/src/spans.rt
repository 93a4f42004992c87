// Where the commands of each step stand in the list, by struct and name, noted off the step directory (01, 'Table and turns').
ghost use Rattle.std.specs.Prelude.{◌≡◌, ◌+◌, ◌*◌, ◌<◌, ◌≤◌, length, set};
ghost use Rattle.types.specs.Limits.{max_structs, step_names};
ghost use Rattle.program.specs.Counts.{All};
ghost use Rattle.directory.specs.Rows.{row_places, rows_from};
ghost use Rattle.memory.specs.Plan.{span_of};
ghost use Rattle.compile.specs.Spans.{RowHeld, span_places, paired, cleared, noted, spans_of};

use directory::Row;
use directory::rows::row_at;

// Two numbers for each name of each struct: the place of a step's first command, and the place behind its last one.
pub const SPANS: usize = 2 * types::STEP_NAMES * types::MAX_STRUCTS;

// A pair of numbers.
fn pair(spans: &mut [u16], i: usize, from: u16, to: u16)
    requires { i + 1 < length spans.old }
    ensures { spans.new ≡ paired i from to spans.old }
{
    spans[i] = from;
    spans[i + 1] = to;
}

// No step of the first n structs is there: of each pair the first number is the greater.
fn clear(spans: &mut [u16], n: usize)
    requires { (length spans.old ≡ span_places) × (n ≤ max_structs) }
    ensures { spans.new ≡ cleared (step_names * n) 0 spans.old }
{
    for i in 0..types::STEP_NAMES * n {
        pair(spans, 2 * i, 1, 0);
    }
}

// The step of a row.
fn note_row(spans: &mut [u16], r: Row)
    requires { (RowHeld r) × (length spans.old ≡ span_places) }
    ensures { spans.new ≡ paired (span_of r.structure r.name) r.start (r.start + r.size) spans.old }
{
    let at = 2 * (types::STEP_NAMES * usize::from(r.structure) + usize::from(r.name));
    pair(spans, at, r.start, r.start + r.size);
}

// The steps of n rows, each noted behind the others, so that of two with one struct and name the first is kept.
fn note(rows: &[u16], n: usize, spans: &mut [u16])
    requires { (row_places * n ≤ length rows.now) × (All RowHeld (rows_from rows.now 0 n)) × (length spans.old ≡ span_places) }
    ensures { spans.new ≡ noted (rows_from rows.now 0 n) spans.old }
{
    for i in (0..n).rev() {
        note_row(spans, row_at(rows, i));
    }
}

// The steps of n rows, and of the other names of the first structs that there is no step.
pub fn of_rows(rows: &[u16], n: usize, structs: usize, spans: &mut [u16])
    requires { (row_places * n ≤ length rows.now) × (All RowHeld (rows_from rows.now 0 n)) × (length spans.old ≡ span_places)
        × (structs ≤ max_structs) }
    ensures { spans.new ≡ spans_of (rows_from rows.now 0 n) structs spans.old }
{
    clear(spans, structs);
    note(rows, n, spans);
}
