// The null instances, one for each struct, with their parameters at their defaults (01, 'Table and turns').
ghost use Rattle.std.specs.Prelude.{◌≡◌, map, ◌+◌, ◌*◌, ◌≤◌, length};
ghost use Rattle.types.specs.Types.{type_of};
ghost use Rattle.types.specs.Values.{default, word};
ghost use Rattle.layout.specs.Layout.{head_size, row_size, cell};
ghost use Rattle.table_read.specs.Params.{types_from, lists_of};
ghost use Rattle.table_read.specs.Laid.{values_laid, null_records, heads_laid, rows_laid};

use crate::parameters::Parameters;

// The cell of a type's default.
fn null_cell(t: u8) -> u64
    ensures { result ≡ cell t (word (default (type_of t))) }
{
    let w = types::default_word(t);
    layout::cell(t, w as u64)
}

// The defaults of n types that stand from a place on, stored one behind the other.
fn defaults(types: &[u8], from: usize, n: usize, cells: &mut [u64], place: usize)
    requires { (from + n ≤ length types.now) × (place + n ≤ length cells.old) }
    ensures { cells.new
        ≡ values_laid types.now from cells.old place (map default (types_from types.now from n)) }
{
    for x in 0..n {
        cells[place + x] = null_cell(types[from + x]);
    }
}

// The null instances of all structs, as the first instances.
pub(crate) fn nulls(p: Parameters, heads: &mut [u16], cells: &mut [u64])
    requires { (head_size * length p.counts.now ≤ length heads.old) × (row_size * length p.counts.now ≤ length cells.old) }
    ensures heads_after { heads.new ≡ heads_laid heads.old 0 (null_records 0 (lists_of p.entry.counts.now p.entry.types.now)) }
    ensures cells_after { cells.new
        ≡ rows_laid p.entry.types.now cells.old 0 (null_records 0 (lists_of p.entry.counts.now p.entry.types.now)) }
{
    for (k, count) in p.counts.iter().enumerate() {
        layout::seat(heads, k, k);
        defaults(
            p.types,
            types::MAX_PARAMS * k,
            little_endian::index(*count),
            cells,
            layout::ROW_SIZE * k,
        );
    }
}
