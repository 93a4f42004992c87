// The block that holds given bytes, written into a lent slice from a place on (01, 'Blocks').
ghost use Rattle.std.specs.Prelude.{◌≡◌, ◌+◌, ◌<◌, ◌≤◌, length};
ghost use Rattle.block.specs.Put.{put};
ghost use Rattle.block.specs.Block.{front, block_of};

use crate::{PAYLOAD, PAYLOAD_SIZE, SUMMED, USED, put, sums};
use little_endian::put_pair;

// Bytes 0 to 507 of block k, which holds the bytes of part.
fn put_front(out: &mut [u8], at: usize, k: usize, part: &[u8])
    requires at_in_bounds { (at + 508 ≤ length out.old) × (k < 65536) }
    requires part_len_bound { length part.now ≤ 504 }
    ensures { out.new ≡ put out.old at (front k part.now) }
{
    let n = part.len();
    put_pair(out, at, k);
    put_pair(out, at + USED, n);
    put::copy(out, at + PAYLOAD, part);
    put::zeros(out, at + PAYLOAD + n, PAYLOAD_SIZE - n);
}

// Block k, which holds the bytes of part: its sums are taken of what stands in the output already.
pub fn put_block(out: &mut [u8], at: usize, k: usize, part: &[u8])
    requires at_in_bounds { (at + 512 ≤ length out.old) × (k < 65536) }
    requires part_len_bound { length part.now ≤ 504 }
    ensures { out.new ≡ put out.old at (block_of k part.now) }
{
    put_front(out, at, k, part);
    let end = at + SUMMED;
    let s = sums(&out[at..end]);
    put_pair(out, end, usize::from(s.a));
    put_pair(out, end + 2, usize::from(s.b));
}
