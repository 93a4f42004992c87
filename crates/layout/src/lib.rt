// The memory that a run is lent and the numbers of its machine (01, 'Table and turns'): how many numbers and cells an instance has, where
// each of them stands, and the functions that read and write them. `specs/Layout.antt` and `specs/State.antt` define what is written here.
#![tactic(auto)]

pub mod codes;

ghost use Rattle.std.specs.Prelude.{◌≡◌, ◌+◌, ◌*◌, ◌<◌, ◌≤◌, length, get_or};
ghost use Rattle.std.proofs.lemmas.List.Edits.{sets};
ghost use Rattle.types.specs.Limits.{nat_end};
ghost use Rattle.layout.specs.Layout.{head_size, head_end, next_of, end_of, head, cell, type_byte, operand, holds, new_head, going, begun};
ghost use Rattle.layout.specs.State.{fresh, due_in};

// The numbers of an instance in `heads`, two bytes each: its struct, the height of its stack, the place of its next command, the end of its
// commands; its owner (02, section 12) and its mark of an iterator (02, section 10), which are 0 from its beginning on. They lie flat, as
// `specs/Layout.antt` has them: `head`, `new_head`, `going` and `begun` are of one list of numbers.
pub const HEAD_SIZE: usize = 6;

pub const STRUCT: usize = 0;

pub const HEIGHT: usize = 1;

pub const NEXT: usize = 2;

pub const END: usize = 3;

pub const OWNER: usize = 4;

pub const PENDING: usize = 5;

// The cells of an instance in `cells`: its variables, and behind them its stack.
pub const ROW_SIZE: usize = 32;

// Memory for all instances.
pub const HEADS: usize = HEAD_SIZE * types::MAX_INSTANCES;

pub const CELLS: usize = ROW_SIZE * types::MAX_INSTANCES;

// The machine's numbers: instances so far, the place in the schedule, open Fixes, their stability entries as bits with the top one lowest,
// 0 or the number of a refusal, how many instances hold commands (02, 'Holders kept as a number'), and the label from which turns are
// counted on, the one after that which acted last (02, 'Turns that go round'). The refusal is a number, since `State` in `specs/State.antt` has it.
#[derive(Clone, Copy)]
pub struct Numbers {
    pub count: usize,
    pub place: usize,
    pub fixes: usize,
    pub stable: usize,
    pub number: u8,
    pub holding: usize,
    pub from: usize,
}

// Those of a machine of so many instances at the beginning of its schedule.
pub fn fresh(count: usize) -> Numbers
    ensures { result ≡ fresh count }
{
    Numbers {
        count,
        place: 0,
        fixes: 0,
        stable: 0,
        number: 0,
        holding: 0,
        from: 0,
    }
}

// Whether a turn is due: some instance holds commands.
pub fn due(numbers: Numbers) -> bool
    ensures { result ≡ due_in numbers }
{
    0 < numbers.holding
}

// Number f of instance l.
pub fn head(heads: &[u16], l: usize, f: usize) -> usize
    requires { head l f < length heads.now }
    ensures { (result ≡ get_or heads.now (head l f) 0) × (result < head_end) }
{
    heads[HEAD_SIZE * l + f] as usize
}

// Whether instance l holds commands.
pub fn holds(heads: &[u16], l: usize) -> bool
    requires { head l end_of < length heads.now }
    ensures { result ≡ holds heads.now l }
{
    let at = HEAD_SIZE * l;
    heads[at + NEXT] < heads[at + END]
}

// Instance l, new, of struct k: an empty stack and no commands.
pub fn seat(heads: &mut [u16], l: usize, k: usize)
    requires { (head_size * l + head_size ≤ length heads.old) × (k < head_end) }
    ensures { heads.new ≡ sets heads.old (head_size * l) (new_head k) }
{
    let at = HEAD_SIZE * l;
    heads[at + STRUCT] = k as u16;
    heads[at + HEIGHT] = 0;
    heads[at + NEXT] = 0;
    heads[at + END] = 0;
    heads[at + OWNER] = 0;
    heads[at + PENDING] = 0;
}

// Instance l goes on at the command n, with h values on its stack.
pub fn go(heads: &mut [u16], l: usize, h: usize, n: usize)
    requires { (head l next_of < length heads.old) × (h < head_end) × (n < head_end) }
    ensures { heads.new ≡ going heads.old l h n }
{
    heads[HEAD_SIZE * l + HEIGHT] = h as u16;
    heads[HEAD_SIZE * l + NEXT] = n as u16;
}

// Instance l has an empty stack and the commands from a to e.
pub fn begin(heads: &mut [u16], l: usize, a: u16, e: u16)
    requires { head l end_of < length heads.old }
    ensures { heads.new ≡ begun heads.old l a e }
{
    let at = HEAD_SIZE * l;
    heads[at + HEIGHT] = 0;
    heads[at + NEXT] = a;
    heads[at + END] = e;
}

// A cell by the byte of a type and a value's word.
pub fn cell(t: u8, w: u64) -> u64
    requires { w < nat_end }
    ensures { result ≡ cell t w }
{
    1 + 256 * (t as u64) + types::NAT_END * w
}

// The parts of a cell, and of a command: the byte of its type and its operand.
pub fn type_byte(c: u64) -> u8
    ensures { result ≡ type_byte c }
{
    (c / 256 % 256) as u8
}

pub fn operand(c: u64) -> u64
    ensures { (result ≡ operand c) × (result < nat_end) }
{
    c / types::NAT_END
}
