// An image of blocks, looked through and joined to its stream (01, 'Blocks').
ghost use Rattle.std.specs.Prelude.{◌≡◌, ◌*◌, ◌≤◌, length};
ghost use Rattle.block.specs.Put.{put};
ghost use Rattle.blocks.specs.Images.{most, length_right, first_fault, joined};
ghost use Rattle.blocks.specs.Faults.{AllRight};

use crate::{BLOCK_SIZE, PAYLOAD_SIZE};
use block::Fault;

// How many indices two bytes hold.
const INDICES: usize = 65536;

// How many blocks an image may have: as many as are allowed, and 65,536 at most, since an index has two bytes.
pub(crate) fn most(max: usize) -> usize
    ensures { (result ≡ most max) × (result ≤ 65536) }
{
    max.min(INDICES)
}

pub(crate) fn length_right(n: usize, max: usize) -> bool
    ensures { result ≡ length_right max n }
{
    n % BLOCK_SIZE == 0 && BLOCK_SIZE <= n && n <= BLOCK_SIZE * most(max)
}

// The first fault of an image of n blocks.
pub(crate) fn first_fault(image: &[u8], n: usize) -> Option<Fault>
    requires { length image.now ≡ 512 * n }
    ensures { result ≡ first_fault n image.now n }
{
    for k in 0..n {
        let start = BLOCK_SIZE * k;
        let end = start + BLOCK_SIZE;
        let last = k + 1 == n;
        if let Some(fault) = block::block_fault(&image[start..end], k, last) {
            return Some(fault);
        }
    }
    None
}

// The length of the stream of n right blocks: every block but the last is full.
pub(crate) fn stream_length(image: &[u8], n: usize) -> usize
    requires image_len { (length image.now ≡ 512 * n) × (1 ≤ n) }
    requires all_right { AllRight n image.now n }
    ensures { result ≡ length (joined image.now n) }
{
    let k = n - 1;
    PAYLOAD_SIZE * k + little_endian::pair_at(image, BLOCK_SIZE * k + block::USED)
}

// The used payloads of n right blocks, joined from the start of the buffer.
pub(crate) fn join(image: &[u8], n: usize, buffer: &mut [u8])
    requires image_len { length image.now ≡ 512 * n }
    requires all_right { AllRight n image.now n }
    requires n_in_bounds { length (joined image.now n) ≤ length buffer.old }
    ensures { buffer.new ≡ put buffer.old 0 (joined image.now n) }
{
    for k in 0..n {
        let start = BLOCK_SIZE * k;
        let end = start + BLOCK_SIZE;
        let block = &image[start..end];
        let used = little_endian::pair_at(block, block::USED);
        block::put::copy(buffer, PAYLOAD_SIZE * k, block::payload(block, used));
    }
}
