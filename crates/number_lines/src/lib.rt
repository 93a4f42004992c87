// Words of `numbers` as text (docs/FORMAT.md, 'Tables as text'): numbers in decimal, one behind the other on their lines.
#![tactic(auto)]

ghost use Rattle.std.specs.Prelude.{◌≡◌, ◌+◌, ◌*◌, ◌≤◌, ◌<◌, length};
ghost use Rattle.text.specs.Listing.{Placed};
ghost use Rattle.number_lines.specs.Lines.{separator, sign, word_text, last_end, lines};

// What parts a word from the one before it.
fn separator(begin: bool, w: u64) -> &'static [u8]
    ensures text { result.now ≡ separator begin w }
    ensures short { length result.now ≤ 1 }
{
    if begin {
        b""
    } else if w < numbers::FIRST {
        b" "
    } else {
        b"\n"
    }
}

fn sign(w: u64) -> &'static [u8]
    ensures text { result.now ≡ sign w }
    ensures short { length result.now ≤ 1 }
{
    if w % numbers::FIRST < numbers::MINUS {
        b""
    } else {
        b"-"
    }
}

fn word(out: &mut [u8], k: usize, begin: bool, w: u64) -> usize
    requires { k + 22 ≤ length out.old }
    ensures placed { Placed (word_text begin w) out.old k result out.new }
    ensures upper_bound { result ≤ k + 22 }
{
    let a = text::put(out, k, separator(begin, w));
    let b = text::put(out, a, sign(w));
    text::decimal(out, b, w % numbers::MINUS)
}

// What ends the last line, if there is one.
fn last_end(begin: bool) -> &'static [u8]
    ensures text { result.now ≡ last_end begin }
    ensures short { length result.now ≤ 1 }
{
    if begin { b"" } else { b"\n" }
}

// The lines of words, from the start of out; where they end.
pub fn print(words: &[u64], out: &mut [u8]) -> usize
    requires { 22 * length words.now < length out.old }
    ensures placed { Placed (lines words.now) out.old 0 result out.new }
    ensures upper_bound { result ≤ 22 * length words.now + 1 }
{
    let mut k = 0;
    let mut begin = true;
    for w in words {
        k = word(out, k, begin, *w);
        begin = false;
    }
    text::put(out, k, last_end(begin))
}
