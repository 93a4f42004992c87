// The blocks that hold a stream, written one after the other (01, 'Blocks').
ghost use Rattle.std.specs.Prelude.{◌≡◌, ◌+◌, ◌*◌, ◌≤◌, length};
ghost use Rattle.block.specs.Put.{put};
ghost use Rattle.blocks.specs.Images.{stream_right, piece, image_of};

use crate::{BLOCK_SIZE, PAYLOAD_SIZE, reading};

pub(crate) fn stream_right(n: usize, max: usize) -> bool
    ensures { result ≡ stream_right max n }
{
    1 <= n && n <= PAYLOAD_SIZE * reading::most(max)
}

// Piece k of a stream, as that part of the caller's slice.
fn piece<'a>(stream: &'a [u8], k: usize) -> &'a [u8]
    requires { 504 * k ≤ length stream.now }
    ensures { result.now ≡ piece stream.now k }
{
    let start = PAYLOAD_SIZE * k;
    if stream.len() - start < PAYLOAD_SIZE {
        return &stream[start..];
    }
    let end = start + PAYLOAD_SIZE;
    &stream[start..end]
}

// The n blocks of a stream, from the start of the output.
pub(crate) fn put_blocks(stream: &[u8], n: usize, out: &mut [u8])
    requires n_in_bounds { (512 * n ≤ length out.old) × (n ≤ 65536) }
    requires n_in_bounds_2 { 504 * n ≤ length stream.now + 503 }
    ensures { out.new ≡ put out.old 0 (image_of stream.now n) }
{
    for k in 0..n {
        block::writing::put_block(out, BLOCK_SIZE * k, k, piece(stream, k));
    }
}
