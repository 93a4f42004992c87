// A run on images (01, 'Numbers from the input' and 'Numbers from the state'): a program image, a table image and turn bytes to a
// number, the commands taken, the blocks written and the depth; the commands to the lent list, the last table to the output.
#![tactic(auto)]

ghost use Rattle.std.specs.Prelude.{◌≡◌, ◌*◌, ◌≤◌, length};
ghost use Rattle.types.specs.Limits.{table_blocks, max_turns, max_instances};
ghost use Rattle.types.specs.Refusals.{numbered};
ghost use Rattle.block.specs.Block.{block_size, payload_size};
ghost use Rattle.run.specs.Entry.{report, run_report, run_output, run_list};
ghost use Rattle.table_write.specs.Written.{Filled, memory_blocks, memory_image};
ghost use Rattle.seating.specs.Seated.{Opening};
ghost use Rattle.run_images.specs.Answer.{answer, settled};
ghost use Rattle.run_images.specs.Stages.{room_told, Begins};

use compile::items::CODES;
use compile::spans::SPANS;
use directory::rows::ROWS;
use engine::Machine;
use interpreter::turns::{Program, Ran};
use seating::Opened;
use types::refusal::Refusal;

// Output bytes that a run asks for.
const OUTPUT: usize = types::TABLE_BLOCKS * blocks::BLOCK_SIZE;

// What a run answers: the number, the commands taken, the blocks written, the program's depth, and how many instances hold commands where it
// ends, before the turn that would come next (02, 'Holders kept as a number').
#[derive(Clone, Copy)]
pub struct Report {
    pub number: u8,
    pub turns: u32,
    pub blocks: u8,
    pub depth: u8,
    pub holding: u16,
}

// An input refusal: no turns, no blocks, no depth, no holders.
fn refused(number: u8) -> Report
    ensures { result ≡ answer (report number 0 0 0 0) }
{
    Report {
        number,
        turns: 0,
        blocks: 0,
        depth: 0,
        holding: 0,
    }
}

// What a run answers that was played or was refused.
fn settled(r: Result<Report, Refusal>) -> Report
    ensures { result ≡ settled r }
{
    match r {
        Ok(report) => report,
        Err(refusal) => refused(u8::from(refusal)),
    }
}

// 13 where the output or the list is too short, 14 where there are too many turn bytes.
fn room(output: usize, list: usize, turns: usize) -> Result<(), Refusal>
    ensures { numbered result ≡ room_told output list turns }
{
    if output < OUTPUT || list < types::MAX_COMMANDS {
        return Err(Refusal::NoRoom);
    }
    if types::MAX_TURNS < turns {
        return Err(Refusal::ManyTurns);
    }
    Ok(())
}

// What a run answers; the table as it stands then is written into the output, its stream into the buffer before.
fn reported(
    counts: &[u8],
    heads: &[u16],
    cells: &[u64],
    ran: Ran,
    depth: u8,
    buffer: &mut [u8],
    output: &mut [u8],
) -> Report
    requires filled { Filled counts.now heads.now cells.now ran.machine.numbers.count }
    requires counts_len_bound { (length counts.now ≤ ran.machine.numbers.count) × (ran.taken ≤ max_turns) × (ran.machine.numbers.holding ≤ max_instances) }
    requires table_blocks_in_bounds { (payload_size * table_blocks ≤ length buffer.old) × (block_size * table_blocks ≤ length output.old) }
    ensures value { result ≡ answer (report ran.number ran.taken
        (memory_blocks counts.now heads.now cells.now ran.machine.numbers.count) depth
        ran.machine.numbers.holding) }
    ensures output_after { output.new ≡ memory_image counts.now heads.now cells.now ran.machine.numbers.count
        output.old }
{
    let last = ran.machine;
    let count = last.numbers.count;
    let blocks = table_write::write(counts, heads, cells, count, buffer, output);
    Report {
        number: ran.number,
        turns: ran.taken as u32,
        blocks: blocks as u8,
        depth,
        holding: last.numbers.holding as u16,
    }
}

// After an accepted program: 9 to 14 in order, or a run. Where its steps will stand and its schedule are known before a machine is seated; the commands
// are written into the list after all refusals, and the turns are taken.
fn begun(
    o: &Opened,
    s: &[u8],
    rows: &[u16],
    table: &[u8],
    turns: &[u8],
    output: &mut [u8],
    list: &mut [u64],
) -> Result<Report, Refusal>
    requires { Opening o.now s.now rows.now }
    ensures { Begins o.now s.now rows.now table.now turns.now output.old list.old (settled result)
        output.new list.new }
{
    let l = o.loaded;
    let p = seating::parameters(o);
    let counts = p.counts;
    let mut spans = [0u16; SPANS];
    let mut items = [0usize; CODES];
    let structs = l.structs as usize;
    compile::program(
        s,
        l.plan,
        structs,
        rows,
        l.steps as usize,
        &mut spans,
        &mut items,
    );
    let mut buffer = [0u8; types::TABLE_BLOCKS * blocks::PAYLOAD_SIZE];
    let mut heads = [0u16; layout::HEADS];
    let mut cells = [0u64; layout::CELLS];
    // 9 to 12
    let seat = seating::seat_table(l.at, p, table, &mut buffer, &mut heads, &mut cells)?;
    // 13 and 14
    room(output.len(), list.len(), turns.len())?;
    emit_steps::program(s, counts, seat.at, list);
    let numbers = seat.numbers;
    let first = Machine { numbers };
    let code = Program {
        list,
        counts,
        items: &items,
        spans: &spans,
    };
    let ran = interpreter::turns::run(first, &code, &mut heads, &mut cells, turns);
    let report = reported(counts, &heads, &cells, ran, l.depth, &mut buffer, output);
    Ok(report)
}

// A program image, a table image and turn bytes: 1 to 14 in order, or a run, which writes the commands into the list and the last table
// into the output.
pub fn run(
    program: &[u8],
    table: &[u8],
    turns: &[u8],
    output: &mut [u8],
    list: &mut [u64],
) -> Report
    ensures value { result ≡ answer (run_report program.now table.now turns.now output.old list.old) }
    ensures output_after { output.new ≡ run_output program.now table.now turns.now output.old
        list.old }
    ensures list_after { list.new ≡ run_list program.now table.now turns.now output.old list.old }
{
    let mut stream = [0u8; seating::SHORT];
    let mut rows = [0u16; ROWS];
    // 1 to 8
    let o = match seating::open_program(program, &mut stream, &mut rows) {
        Ok(o) => o,
        Err(refusal) => return refused(u8::from(refusal)),
    };
    let n = o.loaded.length;
    settled(begun(&o, &stream[..n], &rows, table, turns, output, list))
}
