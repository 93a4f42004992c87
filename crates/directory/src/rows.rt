// Rows of the step directory in lent memory, four numbers each: written, read, and found by struct and name (01, 'Names, types, commands').
// They are numbers in a row, and not a slice of `Row`, since that is what `rows_from`, `put_row` and `Listed` define.
ghost use Rattle.std.specs.Prelude.{◌≡◌, ◌+◌, ◌*◌, ◌<◌, ◌≤◌, ◌^◌, length, get_or};
ghost use Rattle.directory.specs.Directory.{is_row, find_row, there};
ghost use Rattle.directory.specs.Rows.{row_places, put_row, row_at, rows_from, sought};

use crate::Row;

// Numbers of a row, and of as many rows as a program may have.
const ROW_SIZE: usize = 4;

pub const ROWS: usize = ROW_SIZE * types::MAX_STRUCTS * types::MAX_STEPS;

// Row i is written.
pub fn put_row(rows: &mut [u16], i: usize, r: Row)
    requires { row_places * (i + 1) ≤ length rows.old }
    ensures { rows.new ≡ put_row rows.old i r }
{
    let k = ROW_SIZE * i;
    rows[k] = r.structure;
    rows[k + 1] = r.name;
    rows[k + 2] = r.start;
    rows[k + 3] = r.size;
}

// What stands at a place, 0 past the end.
fn look(rows: &[u16], i: usize) -> u16
    ensures { result ≡ get_or rows.now i 0 }
{
    rows.get(i).copied().unwrap_or(0)
}

// Row i, of zeros past the end.
pub fn row_at(rows: &[u16], i: usize) -> Row
    requires { row_places * (i + 1) < 2 ^ 64 }
    ensures { result ≡ row_at rows.now i }
{
    let k = ROW_SIZE * i;
    Row {
        structure: look(rows, k),
        name: look(rows, k + 1),
        start: look(rows, k + 2),
        size: look(rows, k + 3),
    }
}

// Whether a row is of a struct and a name.
fn is_row(r: Row, structure: u16, name: u16) -> bool
    ensures { result ≡ is_row structure name r }
{
    r.structure == structure && r.name == name
}

// The first of n rows that is of a struct and a name.
pub fn find(rows: &[u16], n: u8, structure: u8, name: u8) -> Option<Row>
    ensures { result ≡ sought (find_row (rows_from rows.now 0 n) structure name) }
{
    for i in 0..usize::from(n) {
        let r = row_at(rows, i);
        if is_row(r, u16::from(structure), u16::from(name)) {
            return Some(r);
        }
    }
    None
}

// Whether there is one.
pub fn there(rows: &[u16], n: u8, structure: u8, name: u8) -> bool
    ensures { result ≡ there (rows_from rows.now 0 n) structure name }
{
    find(rows, n, structure, name).is_some()
}
