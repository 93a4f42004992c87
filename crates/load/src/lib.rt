// The loader: a program image to its accepted program, or to the number of its refusal (01, numbers 1 to 8). The stream, the tables of the parameters and the
// rows of the step directory stand in memory that the caller lends. Every entry that takes a program begins here.
#![tactic(auto)]

ghost use Rattle.std.specs.Prelude.{◌≡◌, ◌*◌, ◌≤◌, ◌<◌, length};
ghost use Rattle.types.specs.Limits.{program_blocks, max_structs, max_params};
ghost use Rattle.types.specs.Refusals.{number, numbered};
ghost use Rattle.block.specs.Block.{payload_size};
ghost use Rattle.blocks.specs.Images.{stream};
ghost use Rattle.program.specs.Reader.{read};
ghost use Rattle.directory.specs.Rows.{directory_places};
ghost use Rattle.verdict.specs.Verdict.{of_read, checked};
ghost use Rattle.load.specs.Load.{loaded_by, load_told, TablesHeld, RowsHeld, Held};

use read_program::Summary;
use types::refusal::Refusal;

// What an accepted program is loaded as: how long its stream is, where its steps begin and where its schedule does, how many structs, steps and commands it
// has, and its depth.
#[derive(Clone, Copy)]
pub struct Loaded {
    pub length: usize,
    pub at: usize,
    pub plan: usize,
    pub structs: u8,
    pub steps: u8,
    pub commands: u16,
    pub depth: u8,
}

// The refusal of a program that was read, by its number, 6 to 8.
fn breach(n: u8) -> Refusal
    requires { (6 ≤ n) × (n ≤ 8) }
    ensures { number result ≡ n }
{
    if n == u8::from(Refusal::OverLimits) {
        return Refusal::OverLimits;
    }
    if n == u8::from(Refusal::WrongNames) {
        return Refusal::WrongNames;
    }
    Refusal::WrongTypes
}

fn summed(length: usize, at: usize, p: Summary) -> Loaded
    requires { (p.steps < 256) × (p.commands < 65536) × (p.depth < 256) }
    ensures { result ≡ loaded_by length at p }
{
    Loaded {
        length,
        at,
        plan: p.plan,
        structs: p.structs,
        steps: p.steps as u8,
        commands: p.commands as u16,
        depth: p.depth as u8,
    }
}

// A program stream: 4 to 8.
fn of_stream(
    s: &[u8],
    counts: &mut [u8],
    types: &mut [u8],
    rows: &mut [u16],
) -> Result<Loaded, Refusal>
    requires counts_len { (length counts.old ≡ max_structs) × (length types.old ≡ max_structs * max_params) }
    requires s_len_bound { (length s.now < 65536) × (directory_places ≤ length rows.old) }
    ensures value { numbered result ≡ load_told (of_read (read s.now)) s.now }
    ensures tables_held { TablesHeld (of_read (read s.now)) counts.old counts.new types.old types.new }
    ensures rows_held { RowsHeld (of_read (read s.now)) rows.new }
{
    let (at, p) = read_program::program(s, counts, types, rows)?;
    if p.number != 0 {
        return Err(breach(p.number));
    }
    Ok(summed(s.len(), at, p))
}

// A program image: 1 to 8. The buffer has room for the payloads of 64 blocks. After a refusal what was lent is free, of the lengths that it had.
pub fn program(
    image: &[u8],
    buffer: &mut [u8],
    counts: &mut [u8],
    types: &mut [u8],
    rows: &mut [u16],
) -> Result<Loaded, Refusal>
    requires program_blocks_in_bounds { payload_size * program_blocks ≤ length buffer.old }
    requires counts_len { (length counts.old ≡ max_structs) × (length types.old ≡ max_structs * max_params) }
    requires directory_places_in_bounds { directory_places ≤ length rows.old }
    ensures value { numbered result ≡ load_told (checked image.now) (stream image.now) }
    ensures held { Held (checked image.now) (stream image.now) buffer.old buffer.new counts.old
        counts.new types.old types.new }
    ensures rows_held { RowsHeld (checked image.now) rows.new }
{
    match blocks::open_image(image, types::PROGRAM_BLOCKS, buffer) {
        Ok(n) => of_stream(&buffer[..n], counts, types, rows),
        Err(fault) => Err(blocks::program_number(fault)),
    }
}
