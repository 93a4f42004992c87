// Bytes written into a lent slice from a place on.
ghost use Rattle.std.specs.Prelude.{◌≡◌, ◌+◌, ◌<◌, ◌≤◌, length, replicate};
ghost use Rattle.block.specs.Put.{put};

// All of src, from there on.
pub fn copy(dst: &mut [u8], at: usize, src: &[u8])
    requires { at + length src.now ≤ length dst.old }
    ensures { dst.new ≡ put dst.old at src.now }
{
    // By index: a copy of the whole is a `memmove` in the static library, which needs no other name than `memcpy` and `memset`.
    for i in 0..src.len() {
        dst[at + i] = src[i];
    }
}

// n zero bytes.
pub(crate) fn zeros(dst: &mut [u8], at: usize, n: usize)
    requires { at + n ≤ length dst.old }
    ensures { dst.new ≡ put dst.old at (replicate n 0) }
{
    dst[at..at + n].fill(0);
}
