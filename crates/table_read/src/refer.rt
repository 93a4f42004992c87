// Whether the references of the instances in memory are right, which is judged after everything else (01, 'Table and turns').
ghost use Rattle.std.specs.Prelude.{◌≡◌, ◌+◌, ◌-◌, ◌*◌, ◌≤◌, length};
ghost use Rattle.layout.specs.Layout.{head_size, row_size};
ghost use Rattle.table_read.specs.Refer.{cell_refers, row_refers, rows_refer, Structs};

use crate::parameters::Parameters;

// Whether a cell of the type t names one of the first n instances, of the type's struct; a cell of another type names none.
fn cell_refers(heads: &[u16], n: usize, t: u8, c: u64) -> bool
    requires { head_size * n ≤ length heads.now }
    ensures { result ≡ cell_refers heads.now n t c }
{
    let l = layout::operand(c) as usize;
    !types::is_reference(t)
        || l < n
            && layout::head(heads, l, layout::STRUCT) == little_endian::index(types::struct_of(t))
}

// The m cells from a place on, whose types stand from another.
fn row_refers(
    heads: &[u16],
    n: usize,
    types: &[u8],
    from: usize,
    cells: &[u64],
    place: usize,
    m: usize,
) -> bool
    requires { (head_size * n ≤ length heads.now) × (from + m ≤ length types.now) × (place + m ≤ length cells.now) }
    ensures { result ≡ row_refers heads.now n types.now from cells.now place m }
{
    for x in 0..m {
        if !cell_refers(heads, n, types[from + x], cells[place + x]) {
            return false;
        }
    }
    true
}

// The parameters of the instances from one up to below n.
pub(crate) fn rows_refer(
    p: Parameters,
    heads: &[u16],
    cells: &[u64],
    first: usize,
    n: usize,
) -> bool
    requires structs { Structs heads.now n (length p.counts.now) }
    requires first_le_n { (first ≤ n) × (head_size * n ≤ length heads.now) × (row_size * n ≤ length cells.now) }
    ensures { result ≡ rows_refer p.entry.counts.now p.entry.types.now heads.now cells.now n first (n - first) }
{
    for l in first..n {
        let k = layout::head(heads, l, layout::STRUCT);
        let m = little_endian::index(p.counts[k]);
        let from = types::MAX_PARAMS * k;
        let place = layout::ROW_SIZE * l;
        if !row_refers(heads, n, p.types, from, cells, place, m) {
            return false;
        }
    }
    true
}
