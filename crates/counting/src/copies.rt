// The part of a slice that belongs to one instance, read as an array; and values written into a lent slice, all of them from a place on. Both go by index: a copy
// of the whole is a `memmove` in the static library, which needs no other name than `memcpy` and `memset`, and a count took twice as long.
ghost use Rattle.std.specs.Prelude.{◌≡◌, ◌+◌, ◌*◌, ◌≤◌, length, take, drop};
ghost use Rattle.std.proofs.lemmas.List.Edits.{sets};

// The l-th part of N values.
pub(crate) fn part<T: Copy + Default, const N: usize>(src: &[T], l: usize) -> [T; N]
    requires { N * l + N ≤ length src.now }
    ensures { result ≡ take N (drop (N * l) src.now) }
{
    let mut kept = [T::default(); N];
    let from = N * l;
    for i in 0..N {
        kept[i] = src[from + i];
    }
    kept
}

pub(crate) fn write<T: Copy>(dst: &mut [T], at: usize, src: &[T])
    requires { at + length src.now ≤ length dst.old }
    ensures { dst.new ≡ sets dst.old at src.now }
{
    for i in 0..src.len() {
        dst[at + i] = src[i];
    }
}
