// Gaps between tokens: from a place on to the next token, and back from a place to where its gap begins. 0 stands where no token begins. Most gaps are short,
// and a comment is one gap: a few places are passed one by one, many by eights.
ghost use Rattle.std.specs.Prelude.{◌≡◌, true, ◌+◌, ◌≤◌, ◌<◌, length};
ghost use Rattle.lexer.specs.Gaps.{Gap, Token};

// Places that are passed at once; those that are passed one by one before.
const MANY: usize = 8;

// The kinds of four places as one number, 0 where no token begins in them.
fn four(kinds: &[u8], at: usize) -> u8
    requires { at + 4 ≤ length kinds.now }
    ensures { result ≡ 0 → Gap kinds.now at (at + 4) }
{
    kinds[at] | kinds[at + 1] | kinds[at + 2] | kinds[at + 3]
}

// Whether no token begins in eight places: the machine loads them at once.
fn eight(kinds: &[u8], at: usize) -> bool
    requires { at + 8 ≤ length kinds.now }
    ensures { result ≡ true → Gap kinds.now at (at + 8) }
{
    four(kinds, at) | four(kinds, at + 4) == 0
}

// From a place on while no token begins in eight. Place by place, a comment of 52 KB takes four times as long.
fn eights(kinds: &[u8], from: usize) -> usize
    requires { from ≤ length kinds.now }
    ensures { Gap kinds.now from result }
{
    let blocks = (kinds.len() - from) / MANY;
    for block in 0..blocks {
        let at = from + block * MANY;
        if !eight(kinds, at) {
            return at;
        }
    }
    from + blocks * MANY
}

// The first place from one on at which a token begins, or the end of some.
fn within(kinds: &[u8], from: usize, end: usize) -> usize
    requires { (from ≤ end) × (end ≤ length kinds.now) }
    ensures gap { (Gap kinds.now from result) × (result ≤ end) }
    ensures token { result < end → Token kinds.now result }
{
    for i in from..end {
        if kinds[i] != 0 {
            return i;
        }
    }
    end
}

// The first place from one on at which a token begins, or the end: a few places one by one, then by eights.
fn beyond(kinds: &[u8], from: usize) -> usize
    requires { from ≤ length kinds.now }
    ensures { Gap kinds.now from result × Token kinds.now result }
{
    if kinds.len() - from <= MANY {
        return within(kinds, from, kinds.len());
    }
    let i = within(kinds, from, from + MANY);
    if kinds[i] != 0 {
        return i;
    }
    within(kinds, eights(kinds, i), kinds.len())
}

// The place of the first token, or the end.
pub fn first(kinds: &[u8]) -> usize
    ensures { Gap kinds.now 0 result × Token kinds.now result }
{
    beyond(kinds, 0)
}

// The first place from one on at which a token begins, or the end. Signs stand in a row, so the place itself is looked at first.
pub fn next(kinds: &[u8], from: usize) -> usize
    requires { from ≤ length kinds.now }
    ensures { Gap kinds.now from result × Token kinds.now result }
{
    if from < kinds.len() && kinds[from] == 0 {
        beyond(kinds, from)
    } else {
        from
    }
}

// Back from a place while no token begins in eight.
fn eights_back(kinds: &[u8], end: usize) -> usize
    requires { end ≤ length kinds.now }
    ensures { Gap kinds.now result end }
{
    for block in 0..end / MANY {
        let last = end - block * MANY;
        if !eight(kinds, last - MANY) {
            return last;
        }
    }
    end % MANY
}

// The place behind the last one before a place at which a token begins, or the first of some.
fn back_within(kinds: &[u8], first: usize, end: usize) -> usize
    requires { (first ≤ end) × (end ≤ length kinds.now) }
    ensures { (Gap kinds.now result end) × (first ≤ result) }
{
    for i in (first..end).rev() {
        if kinds[i] != 0 {
            return i + 1;
        }
    }
    first
}

// The place behind the last one before a place at which a token begins, or the start.
pub fn start(kinds: &[u8], end: usize) -> usize
    requires { end ≤ length kinds.now }
    ensures { Gap kinds.now result end }
{
    if end <= MANY {
        return back_within(kinds, 0, end);
    }
    let near = end - MANY;
    let i = back_within(kinds, near, end);
    if near < i {
        return i;
    }
    back_within(kinds, 0, eights_back(kinds, i))
}
