// The instances in memory, written as a table stream one behind the other (01, 'Table and turns').
ghost use Rattle.std.specs.Prelude.{◌≡◌, ◌+◌, ◌-◌, ◌*◌, ◌≤◌, length};
ghost use Rattle.std.proofs.lemmas.List.Edits.{sets};
ghost use Rattle.table.specs.Table.{value_bytes, count_bytes};
ghost use Rattle.table.specs.Sizes.{most_record};
ghost use Rattle.table_write.specs.Written.{Filled, cells_bytes, rows_bytes, memory_stream};

// The values of the m cells from a place on.
fn values(out: &mut [u8], at: usize, cells: &[u64], place: usize, m: usize)
    requires { (at + value_bytes * m ≤ length out.old) × (place + m ≤ length cells.now) }
    ensures { out.new ≡ sets out.old at (cells_bytes cells.now place m) }
{
    for x in 0..m {
        little_endian::put_word(
            out,
            at + table::VALUE_BYTES * x,
            layout::operand(cells[place + x]),
        );
    }
}

// The instances from one up to below n, and the place behind them.
fn instances(
    out: &mut [u8],
    at: usize,
    counts: &[u8],
    heads: &[u16],
    cells: &[u64],
    first: usize,
    n: usize,
) -> usize
    requires filled { Filled counts.now heads.now cells.now n }
    requires first_le_n { (first ≤ n) × (at + most_record * (n - first) ≤ length out.old) }
    ensures value { result ≡ at + length (rows_bytes counts.now heads.now cells.now first (n - first)) }
    ensures out_after { out.new ≡ sets out.old at
        (rows_bytes counts.now heads.now cells.now first (n - first)) }
{
    let mut next = at;
    for l in first..n {
        let k = layout::head(heads, l, layout::STRUCT);
        let m = little_endian::index(counts[k]);
        out[next] = k as u8;
        let first_value = next + table::HEAD_BYTES;
        values(out, first_value, cells, layout::ROW_SIZE * l, m);
        next = first_value + table::VALUE_BYTES * m;
    }
    next
}

// The stream of the n instances' table, from the start of the output: the null ones are not written. How long it is.
pub(crate) fn stream(counts: &[u8], heads: &[u16], cells: &[u64], n: usize, out: &mut [u8]) -> usize
    requires filled { Filled counts.now heads.now cells.now n }
    requires counts_len_bound { (length counts.now ≤ n) × (count_bytes + most_record * n ≤ length out.old) }
    ensures value { result ≡ length (memory_stream counts.now heads.now cells.now n) }
    ensures out_after { out.new ≡ sets out.old 0 (memory_stream counts.now heads.now cells.now n) }
{
    let structs = counts.len();
    little_endian::put_pair(out, 0, n - structs);
    instances(out, table::COUNT_BYTES, counts, heads, cells, structs, n)
}
