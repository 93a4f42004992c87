// The instances in lent memory, written as a table image (01, 'Table and turns'). Memory holds them as `memory` lays a machine out, and as
// `table_read` reads them.
#![tactic(auto)]

mod writing;

ghost use Rattle.std.specs.Prelude.{◌≡◌, ◌*◌, ◌≤◌, length};
ghost use Rattle.types.specs.Limits.{table_blocks};
ghost use Rattle.block.specs.Block.{block_size, payload_size};
ghost use Rattle.table_write.specs.Written.{Filled, memory_blocks, memory_image};

// The table of the n instances in memory, in blocks from the start of the output. How many blocks. The buffer has room for every block that is
// allowed; afterwards it is free, of the length that it had.
pub fn write(
    counts: &[u8],
    heads: &[u16],
    cells: &[u64],
    n: usize,
    buffer: &mut [u8],
    out: &mut [u8],
) -> usize
    requires filled { Filled counts.now heads.now cells.now n }
    requires counts_len_bound { (length counts.now ≤ n) × (payload_size * table_blocks ≤ length buffer.old) × (block_size * table_blocks ≤ length out.old) }
    ensures value { result ≡ memory_blocks counts.now heads.now cells.now n }
    ensures out_after { out.new ≡ memory_image counts.now heads.now cells.now n out.old }
{
    let len = writing::stream(counts, heads, cells, n, buffer);
    let w = blocks::write_image(&buffer[..len], types::TABLE_BLOCKS, out);
    let Ok(k) = w else {
        return 0;
    };
    k
}
