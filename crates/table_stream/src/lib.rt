// Numbers as a table stream (docs/FORMAT.md, 'Tables as text'): each line is a record, with its label, its struct and its values, as words of `numbers`.
#![tactic(auto)]

ghost use Rattle.std.specs.Prelude.{◌≡◌, ◌++◌, ◌+◌, ◌*◌, ◌≤◌, ◌<◌, length, get_or, set, take};
ghost use Rattle.std.proofs.lemmas.List.Edits.{sets};
ghost use Rattle.program.specs.Encoding.{enc_word};
ghost use Rattle.table_stream.specs.TableStream.{value_number, word_bytes, begins, item_bytes, one_line, stream_of, agreed_from, judged};

use table_words::put;

// Why words give no table: how many of them are right, or an output that is too short.
#[derive(Clone, Copy)]
pub enum NoTable {
    NoRecord(usize),
    Short,
}

// The number of four bytes of a value.
fn value_number(w: u64) -> u64
    ensures { result ≡ value_number w }
{
    let v = w % types::NAT_END;
    if w % numbers::FIRST < numbers::MINUS {
        v
    } else {
        (types::NAT_END - v) % types::NAT_END
    }
}

// The bytes of a number of four, as far as there are places.
fn put_word(out: &mut [u8], at: usize, w: u64)
    requires { at < 1000000 }
    ensures { out.new ≡ sets out.old at (enc_word 4 w) }
{
    let mut b = [0u8; 4];
    little_endian::put_word(&mut b, 0, w);
    put(out, at, b[0]);
    put(out, at + 1, b[1]);
    put(out, at + 2, b[2]);
    put(out, at + 3, b[3]);
}

// The bytes of a word behind a label; the place behind them.
fn word(out: &mut [u8], at: usize, structure: bool, w: u64) -> usize
    requires { at < 1000000 }
    ensures value { (result ≡ at + length (word_bytes structure w)) × (out.new ≡ sets out.old at (word_bytes structure w)) }
    ensures upper_bound { result ≤ at + 4 }
{
    if structure {
        put(out, at, (w % 256) as u8);
        at + 1
    } else {
        put_word(out, at, value_number(w));
        at + 4
    }
}

// Whether a word begins a line.
fn begins(w: u64) -> bool
    ensures { result ≡ begins w }
{
    w >= numbers::FIRST
}

fn one_line(w: u64) -> usize
    ensures { (result ≡ one_line w) × (result ≤ 1) }
{
    if begins(w) { 1 } else { 0 }
}

// The bytes of a word, none of a label; the place behind them.
fn item(out: &mut [u8], at: usize, structure: bool, w: u64) -> usize
    requires { at < 1000000 }
    ensures value { (result ≡ at + length (item_bytes structure w)) × (out.new ≡ sets out.old at (item_bytes structure w)) }
    ensures upper_bound { result ≤ at + 4 }
{
    if begins(w) {
        at
    } else {
        word(out, at, structure, w)
    }
}

// The stream of words, from the start of out as far as it goes; how long it is.
pub fn stream(words: &[u64], out: &mut [u8]) -> usize
    requires { length words.now ≤ 65536 }
    ensures value { result ≡ length (stream_of words.now) }
    ensures out_after { out.new ≡ sets out.old 0 (stream_of words.now) }
{
    let mut at = 2;
    let mut structure = false;
    let mut lines: usize = 0;
    for w in words {
        at = item(out, at, structure, *w);
        structure = begins(*w);
        lines += one_line(*w);
    }
    let mut head = [0u8; 2];
    little_endian::put_pair(&mut head, 0, lines);
    put(out, 0, head[0]);
    put(out, 1, head[1]);
    at
}

// How many words are the same in both, up to the first that is not.
fn agreed(a: &[u64], b: &[u64]) -> usize
    ensures { result ≡ agreed_from 0 a.now b.now }
{
    for (i, w) in a.iter().enumerate() {
        if b.len() <= i || *w != b[i] {
            return i;
        }
    }
    a.len()
}

// The stream of n bytes that was made of words, where they are those that it has as a table, which are `back`, and there is room for it.
pub fn judge(room: usize, n: usize, words: &[u64], back: &[u64]) -> Result<usize, NoTable>
    ensures { result ≡ judged room n words.now back.now }
{
    if room < n {
        return Err(NoTable::Short);
    }
    let k = agreed(words, back);
    if k != words.len() || back.len() != words.len() {
        return Err(NoTable::NoRecord(k));
    }
    Ok(n)
}
