// Tables of instances, from an image into lent memory (01, 'Table and turns'). Memory holds them as `memory` lays a machine
// out: six numbers for each instance in `heads`, thirty-two cells for each in `cells`. Of a program's parameters `counts` has for each
// struct how many there are, and `types` eight places with the bytes of their types.
#![tactic(auto)]

mod nulls;
mod parameters;
mod reading;
mod refer;

ghost use Rattle.std.specs.Prelude.{◌≡◌, ◌+◌, ◌*◌, ◌≤◌, length};
ghost use Rattle.types.specs.Limits.{max_instances, table_blocks};
ghost use Rattle.types.specs.Refusals.{numbered};
ghost use Rattle.block.specs.Block.{payload_size};
ghost use Rattle.table.specs.TableReader.{table_of_stream};
ghost use Rattle.layout.specs.Layout.{head_size, row_size};
ghost use Rattle.table_read.specs.Params.{lists_of};
ghost use Rattle.run.specs.Entry.{tabled};
ghost use Rattle.table_read.specs.TableTold.{behind_count, table_told, TableLaid};

pub use parameters::Parameters;
use types::refusal::Refusal;

// The n records behind their number, and the end of the stream behind them; references last.
fn behind(
    s: &[u8],
    p: Parameters,
    n: usize,
    heads: &mut [u16],
    cells: &mut [u64],
) -> Result<usize, Refusal>
    requires in_bounds { (2 ≤ length s.now) × (n + length p.counts.now ≤ max_instances) }
    requires heads_len { (length heads.old ≡ head_size * max_instances) × (length cells.old ≡ row_size * max_instances) }
    ensures value { numbered result ≡ table_told (length p.entry.counts.now) (behind_count (lists_of p.entry.counts.now p.entry.types.now) s.now n) }
    ensures table_laid { TableLaid p.entry.counts.now p.entry.types.now heads.old cells.old
        (behind_count (lists_of p.entry.counts.now p.entry.types.now) s.now n) heads.new cells.new }
{
    let structs = p.counts.len();
    nulls::nulls(p, heads, cells);
    let end = reading::records(s, p, n, 2, heads, cells)?;
    if end < s.len() {
        return Err(Refusal::TableEnd);
    }
    let all = structs + n;
    if !refer::rows_refer(p, heads, cells, structs, all) {
        return Err(Refusal::TableValue);
    }
    Ok(all)
}

// A table stream, whose instances stand in memory where it is accepted. After a refusal memory is free, of the lengths that it had.
fn read(s: &[u8], p: Parameters, heads: &mut [u16], cells: &mut [u64]) -> Result<usize, Refusal>
    requires heads_len { (length heads.old ≡ head_size * max_instances) × (length cells.old ≡ row_size * max_instances) }
    ensures value { numbered result ≡ table_told (length p.entry.counts.now) (table_of_stream (lists_of p.entry.counts.now p.entry.types.now) s.now) }
    ensures table_laid { TableLaid p.entry.counts.now p.entry.types.now heads.old cells.old
        (table_of_stream (lists_of p.entry.counts.now p.entry.types.now) s.now) heads.new cells.new }
{
    let n = reading::count(s, p.counts.len())?;
    behind(s, p, n, heads, cells)
}

// A table image: 9 and 10, then what its stream comes to, memory too; how many instances there are, the null ones among them. The buffer has room for
// every block that is allowed; afterwards it is free, of the length that it had.
pub fn read_image(
    image: &[u8],
    p: Parameters,
    buffer: &mut [u8],
    heads: &mut [u16],
    cells: &mut [u64],
) -> Result<usize, Refusal>
    requires heads_len { (length heads.old ≡ head_size * max_instances) × (length cells.old ≡ row_size * max_instances) }
    requires table_blocks_in_bounds { payload_size * table_blocks ≤ length buffer.old }
    ensures value { numbered result ≡ table_told (length p.entry.counts.now) (tabled (lists_of p.entry.counts.now p.entry.types.now) image.now) }
    ensures table_laid { TableLaid p.entry.counts.now p.entry.types.now heads.old cells.old
        (tabled (lists_of p.entry.counts.now p.entry.types.now) image.now) heads.new cells.new }
{
    match blocks::open_image(image, types::TABLE_BLOCKS, buffer) {
        Ok(n) => read(&buffer[..n], p, heads, cells),
        Err(fault) => Err(blocks::table_number(fault)),
    }
}
