// What an entry on images does before it acts (01, 'Numbers from the input'): a program image is admitted into short room (1 to 8), and a machine
// is seated in lent memory beside it, here the one that a table image begins with (9 to 12).
#![tactic(auto)]

ghost use Rattle.std.specs.Prelude.{◌≡◌, ◌*◌, ◌≤◌, length};
ghost use Rattle.types.specs.Limits.{max_structs, max_params, table_blocks, max_instances};
ghost use Rattle.types.specs.Refusals.{numbered};
ghost use Rattle.block.specs.Block.{payload_size};
ghost use Rattle.blocks.specs.Images.{stream};
ghost use Rattle.directory.specs.Rows.{directory_places};
ghost use Rattle.verdict.specs.Verdict.{checked};
ghost use Rattle.layout.specs.Layout.{head_size, row_size};
ghost use Rattle.load.specs.Load.{load_told, RowsHeld, Held};
ghost use Rattle.seating.specs.Seated.{most_bytes, counts_of, types_of, Tabled, OpensImage, SeatsTable};

use layout::Numbers;
use load::Loaded;
use table_read::Parameters;
use types::refusal::Refusal;

// Bytes that the stream of an accepted program has at most: five for a command, three for a scheduled item, and what structs and steps take.
pub const SHORT: usize = 2
    + 26 * types::MAX_STRUCTS
    + 5 * types::MAX_COMMANDS
    + 3 * types::SCHEDULE_ITEMS;

// An accepted program: what it was loaded as, and its parameters; for each struct how many there are, and eight places with the bytes of their types.
#[derive(Clone, Copy)]
pub struct Opened {
    pub loaded: Loaded,
    pub counts: [u8; types::MAX_STRUCTS],
    pub types: [u8; types::MAX_STRUCTS * types::MAX_PARAMS],
}

// Of a machine in lent memory: where the steps of its program begin, and its numbers.
#[derive(Clone, Copy)]
pub struct Seat {
    pub at: usize,
    pub numbers: Numbers,
}

// The parameters of an accepted program.
pub fn parameters(o: &Opened) -> Parameters<'_>
    requires { (o.now.loaded.structs ≤ max_structs) × Tabled o.now }
    ensures { (result.counts.now ≡ counts_of o.now) × (result.types.now ≡ types_of o.now) }
{
    let structs = usize::from(o.loaded.structs);
    Parameters::new(
        &o.counts[..structs],
        &o.types[..types::MAX_PARAMS * structs],
    )
}

// A program image, as `load::program` has it, into a buffer that the stream of an accepted program fits: the room for a longer one is given back before
// an entry's own memory is asked for.
pub fn admit(
    image: &[u8],
    buffer: &mut [u8],
    counts: &mut [u8],
    types: &mut [u8],
    rows: &mut [u16],
) -> Result<Loaded, Refusal>
    requires most_bytes_in_bounds { most_bytes ≤ length buffer.old }
    requires counts_len { (length counts.old ≡ max_structs) × (length types.old ≡ max_structs * max_params) }
    requires directory_places_in_bounds { directory_places ≤ length rows.old }
    ensures value { numbered result ≡ load_told (checked image.now) (stream image.now) }
    ensures held { Held (checked image.now) (stream image.now) buffer.old buffer.new
        counts.old counts.new types.old types.new }
    ensures rows_held { RowsHeld (checked image.now) rows.new }
{
    let mut stream = [0u8; types::PROGRAM_BLOCKS * blocks::PAYLOAD_SIZE];
    let p = load::program(image, &mut stream, counts, types, rows)?;
    let n = p.length;
    block::put::copy(buffer, 0, &stream[..n]);
    Ok(p)
}

// A program image that is accepted, as it was loaded and with its parameters; its stream and the rows of its step directory stand in the lent room.
pub fn open_program(image: &[u8], stream: &mut [u8], rows: &mut [u16]) -> Result<Opened, Refusal>
    requires most_bytes_in_bounds { most_bytes ≤ length stream.old }
    requires directory_places_in_bounds { directory_places ≤ length rows.old }
    ensures { OpensImage image.now result stream.new rows.new }
{
    let mut counts = [0u8; types::MAX_STRUCTS];
    let mut types = [0u8; types::MAX_STRUCTS * types::MAX_PARAMS];
    let loaded = admit(image, stream, &mut counts, &mut types, rows)?;
    Ok(Opened {
        loaded,
        counts,
        types,
    })
}

// The machine that a table image begins with, beside an accepted program whose steps begin at a place. The buffer is free afterwards.
pub fn seat_table(
    at: usize,
    p: Parameters,
    table: &[u8],
    buffer: &mut [u8],
    heads: &mut [u16],
    cells: &mut [u64],
) -> Result<Seat, Refusal>
    requires heads_len { (length heads.old ≡ head_size * max_instances) × (length cells.old ≡ row_size * max_instances) }
    requires table_blocks_in_bounds { payload_size * table_blocks ≤ length buffer.old }
    ensures { SeatsTable at p.entry.counts.now p.entry.types.now table.now (numbered result) heads.new cells.new }
{
    let count = table_read::read_image(table, p, buffer, heads, cells)?;
    let numbers = layout::fresh(count);
    Ok(Seat { at, numbers })
}
