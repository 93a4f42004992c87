// A page of a trace's text in a lent buffer (docs/FORMAT.md, 'Traces'): the bytes from a place on, as many as the buffer holds. Those before the page and
// after it are counted and not stored.
ghost use Rattle.std.specs.Prelude.{◌≡◌, List, ◌++◌, ℕ, ◌+◌, ◌^◌, ◌<◌, ◌≤◌, min, length};
ghost use Rattle.types.specs.Limits.{max_turns};
ghost use Rattle.trace.specs.LineText.{end_text};
ghost use Rattle.trace_lines.specs.Parts.{line_most};
ghost use Rattle.trace_images.specs.Pages.{blank, longer, Paged, Grows, Answered};

use crate::Traced;

// Room for a line.
pub(crate) const LINE: usize = 1024;

// Where the page begins in the text, and how many bytes of the text there are so far.
#[derive(Clone, Copy)]
pub(crate) struct Page {
    pub from: usize,
    pub length: usize,
}

// Before the first line.
pub(crate) fn blank(from: usize) -> Page
    ensures { result ≡ blank from }
{
    Page { from, length: 0 }
}

// The less of two numbers.
fn least(a: usize, b: usize) -> usize
    ensures { result ≡ min a b }
{
    if a < b { a } else { b }
}

// A line more: what of it lies on the page is copied there.
pub(crate) fn put(g: Page, line: &[u8], out: &mut [u8]) -> Page
    requires { g.length + length line.now < 2 ^ 64 }
    ensures value { result ≡ longer g (length line.now) }
    ensures grows { Grows g line.now out.old out.new }
{
    let at = least(out.len(), g.length.saturating_sub(g.from));
    let start = least(line.len(), g.from.saturating_sub(g.length));
    let end = start + least(line.len() - start, out.len() - at);
    block::put::copy(out, at, &line[start..end]);
    Page {
        from: g.from,
        length: g.length + line.len(),
    }
}

// The last line, with number and turns; what is answered then.
pub(crate) fn ended(g: Page, number: u8, taken: usize, out: &mut [u8]) -> Traced
    requires { (g.length + line_most < 2 ^ 64) × (taken ≤ max_turns) }
    ensures { (text lent : List ℕ) → Paged text lent g out.old
        → Answered number taken (text ++ end_text number taken) g.from lent result out.new }
{
    let mut line = [0u8; LINE];
    let n = text::lines::row(&mut line, 0, b"end", &[number as u64, taken as u64]);
    let p = put(g, &line[..n], out);
    let count = least(out.len(), p.length.saturating_sub(p.from));
    Traced {
        number,
        turns: taken as u32,
        length: p.length,
        count,
    }
}

// What is answered to an input refusal: its number, and no turns.
pub(crate) fn refused(number: u8, from: usize, out: &mut [u8]) -> Traced
    ensures { Answered number 0 (end_text number 0) from out.old result out.new }
{
    ended(blank(from), number, 0, out)
}
