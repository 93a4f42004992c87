// One block of an image (01, 'Blocks'): its sums, the tests of which a failed one is a fault, its payload; and the block that holds given bytes.
#![tactic(auto)]

pub mod put;
pub mod writing;

ghost use Rattle.std.specs.Prelude.{◌≡◌, ◌+◌, ◌<◌, ◌≤◌, ◌↔◌, ◌&&◌, length, take, drop, slice_index, EachIndex, IsTrue};
ghost use Rattle.block.specs.Sums.{sum_a, sum_b};
ghost use Rattle.block.specs.Block.{used, unused_part, sums_right, used_right, zeros, laid_out, block_fault};

pub const BLOCK_SIZE: usize = 512;

pub const PAYLOAD_SIZE: usize = 504;

// The bytes that are summed, and where the sums stand after them.
pub const SUMMED: usize = 508;

const SUM_A: usize = 508;

const SUM_B: usize = 510;

// Where a block's index, the count of its used bytes and its payload stand.
const INDEX: usize = 0;

pub const USED: usize = 2;

pub(crate) const PAYLOAD: usize = 4;

// What is wrong with an image.
#[derive(Clone, Copy, PartialEq, Eq, Debug)]
pub enum Fault {
    Length,
    Sum,
    Layout,
}

// The two sums of a block.
#[derive(Clone, Copy)]
pub struct Both {
    pub a: u16,
    pub b: u16,
}

// Both sums in one walk: each byte is added to A, and A to B, so that a byte counts in B as often as bytes follow up to 507, itself among them.
pub(crate) fn sums(block: &[u8]) -> Both
    requires { 508 ≤ length block.now }
    ensures { (result.a ≡ sum_a block.now) × (result.b ≡ sum_b block.now) }
{
    let mut a: u16 = 0;
    let mut b: u16 = 0;
    for byte in &block[..SUMMED] {
        a = a.wrapping_add(u16::from(*byte));
        b = b.wrapping_add(a);
    }
    Both { a, b }
}

fn sums_right(block: &[u8]) -> bool
    requires { length block.now ≡ 512 }
    ensures { result ≡ sums_right block.now }
{
    let s = sums(block);
    little_endian::pair_at(block, SUM_A) == usize::from(s.a)
        && little_endian::pair_at(block, SUM_B) == usize::from(s.b)
}

// Whether bytes are all zero.
fn zeros(bytes: &[u8]) -> bool
    ensures { IsTrue result ↔ EachIndex bytes.now (λ i. slice_index bytes.now i ≡ 0) }
{
    bytes.iter().all(|byte| *byte == 0)
}

fn used_right(last: bool, used: usize) -> bool
    ensures { result ≡ used_right last used }
{
    if last {
        1 <= used && used <= PAYLOAD_SIZE
    } else {
        used == PAYLOAD_SIZE
    }
}

// Whether as much of the payload is used as may be, and the rest is zero.
fn filled(block: &[u8], last: bool) -> bool
    requires { length block.now ≡ 512 }
    ensures { result ≡ (used_right last (used block.now) && zeros (unused_part block.now)) }
{
    let used = little_endian::pair_at(block, USED);
    used_right(last, used) && zeros(&block[PAYLOAD + used..SUMMED])
}

fn laid_out(block: &[u8], k: usize, last: bool) -> bool
    requires { length block.now ≡ 512 }
    ensures { result ≡ laid_out k last block.now }
{
    little_endian::pair_at(block, INDEX) == k && filled(block, last)
}

// The fault of block k, if it has one: the sums before the layout.
pub fn block_fault(block: &[u8], k: usize, last: bool) -> Option<Fault>
    requires { length block.now ≡ 512 }
    ensures { result ≡ block_fault k last block.now }
{
    if !sums_right(block) {
        return Some(Fault::Sum);
    }
    if !laid_out(block, k, last) {
        return Some(Fault::Layout);
    }
    None
}

// The used part of a block's payload, as that part of the caller's slice.
pub fn payload<'a>(block: &'a [u8], used: usize) -> &'a [u8]
    requires { (used ≤ 504) × (length block.now ≡ 512) }
    ensures { result.now ≡ take used (drop 4 block.now) }
{
    &block[PAYLOAD..PAYLOAD + used]
}
