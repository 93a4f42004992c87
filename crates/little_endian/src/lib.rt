// Numbers of two and of four bytes, read and written at a place of a stream or a block (01: "numbers of several bytes are little-endian").
#![tactic(auto)]

ghost use Rattle.std.specs.Prelude.{◌≡◌, ◌+◌, ◌≤◌, ◌<◌, length};
ghost use Rattle.std.proofs.lemmas.List.Edits.{sets};
ghost use Rattle.types.specs.Limits.{nat_end};
ghost use Rattle.little_endian.specs.Numbers.{pair_at, word_at, bytes_of};

// How many numbers two bytes hold.
const PAIRS: usize = 65536;

// A byte as a place or a count, with its bound, which the readers of tables count on.
pub fn index(b: u8) -> usize
    ensures { (result ≡ b) × (result < 256) }
{
    usize::from(b)
}

// The number of two bytes that stands there.
pub fn pair_at(s: &[u8], at: usize) -> usize
    requires { at + 2 ≤ length s.now }
    ensures { (result ≡ pair_at s.now at) × (result < 65536) }
{
    usize::from(u16::from_le_bytes([s[at], s[at + 1]]))
}

// The number of four bytes that stands there.
pub fn word_at(s: &[u8], at: usize) -> u64
    requires { at + 4 ≤ length s.now }
    ensures { (result ≡ word_at s.now at) × (result < nat_end) }
{
    u64::from(u32::from_le_bytes([s[at], s[at + 1], s[at + 2], s[at + 3]]))
}

// The two lowest bytes of a number, stored there.
pub fn put_pair(out: &mut [u8], at: usize, n: usize)
    requires { at + 2 ≤ length out.old }
    ensures { out.new ≡ sets out.old at (bytes_of 2 n) }
{
    let low = (n % PAIRS) as u16;
    out[at..at + 2].copy_from_slice(&low.to_le_bytes());
}

// The four lowest bytes.
pub fn put_word(out: &mut [u8], at: usize, w: u64)
    requires { at + 4 ≤ length out.old }
    ensures { out.new ≡ sets out.old at (bytes_of 4 w) }
{
    let low = (w % types::NAT_END) as u32;
    out[at..at + 4].copy_from_slice(&low.to_le_bytes());
}
