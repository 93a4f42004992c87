// A table stream as numbers (docs/FORMAT.md, 'Tables as text'): label, struct and values of each record, as words of `numbers`.
#![tactic(auto)]

ghost use Rattle.std.specs.Prelude.{◌≡◌, ◌+◌, ◌*◌, ◌≤◌, ◌<◌, length, get_or, set};
ghost use Rattle.std.proofs.lemmas.List.Edits.{sets};
ghost use Rattle.types.specs.Limits.{nat_end};
ghost use Rattle.table_words.specs.TableWords.{quad, value_word, values_words, arity_at, row_words, table_words};

use little_endian::{index, pair_at, word_at};

// The byte at a place, 0 where there is none.
fn look(s: &[u8], at: usize) -> u8
    ensures { result ≡ get_or s.now at 0 }
{
    s.get(at).copied().unwrap_or(0)
}

// The same as a place or a count.
fn byte(s: &[u8], at: usize) -> usize
    ensures { (result ≡ get_or s.now at 0) × (result < 256) }
{
    index(look(s, at))
}

// A number at a place, where there is such a place.
pub fn put<T: Copy>(out: &mut [T], at: usize, x: T)
    ensures { out.new ≡ set out.old at x }
{
    if at < out.len() {
        out[at] = x;
    }
}

// The number of four bytes that stands there, with 0 for those that do not.
fn quad(s: &[u8], at: usize) -> u64
    requires { at < 4294967296 }
    ensures { (result ≡ quad s.now at) × (result < nat_end) }
{
    let b = [
        look(s, at),
        look(s, at + 1),
        look(s, at + 2),
        look(s, at + 3),
    ];
    word_at(&b, 0)
}

// The word of a value: an Int from half of the numbers on is negative.
fn value_word(t: usize, w: u64) -> u64
    requires { w < nat_end }
    ensures { result ≡ value_word t w }
{
    if t != 0 {
        return w;
    }
    if w < types::INT_HALF {
        return w;
    }
    numbers::MINUS + (types::NAT_END - w)
}

// The words of m values at n and behind; their types stand from i on.
fn values(types: &[u8], s: &[u8], i: usize, m: usize, at: usize, out: &mut [u64], n: usize)
    requires { (i < 4096) × (m < 256) × (at < 4000000000) × (n < 4000000000) }
    ensures { out.new ≡ sets out.old n (values_words types.now s.now i m at) }
{
    for x in 0..m {
        let w = value_word(byte(types, i + x), quad(s, at + 4 * x));
        put(out, n + x, w);
    }
}

// The words of the record at a place, with the label l, at n and behind; how many values it has.
fn row(
    counts: &[u8],
    types: &[u8],
    s: &[u8],
    at: usize,
    l: usize,
    out: &mut [u64],
    n: usize,
) -> usize
    requires { (at < 3000000000) × (l < 4294967296) × (n < 3000000000) }
    ensures value { (result ≡ arity_at counts.now types.now s.now at)
        × (out.new ≡ sets out.old n (row_words counts.now types.now s.now l at)) }
    ensures upper_bound { result < 256 }
{
    let k = byte(s, at);
    let c = byte(counts, k);
    put(out, n, numbers::FIRST + l as u64);
    put(out, n + 1, k as u64);
    values(types, s, types::MAX_PARAMS * k, c, at + 1, out, n + 2);
    c
}

// The words of a table's records, from the start of out, as far as it goes; how many there are.
pub fn words(counts: &[u8], types: &[u8], structs: u8, s: &[u8], out: &mut [u64]) -> usize
    ensures value { result ≡ length (table_words counts.now types.now structs s.now) }
    ensures out_after { out.new ≡ sets out.old 0 (table_words counts.now types.now structs s.now) }
{
    let b = [look(s, 0), look(s, 1)];
    let m = pair_at(&b, 0);
    let nulls = index(structs);
    let mut at = 2;
    let mut n = 0;
    for i in 0..m {
        let c = row(counts, types, s, at, nulls + i, out, n);
        at = at + 1 + 4 * c;
        n = n + 2 + c;
    }
    n
}
