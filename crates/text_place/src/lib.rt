// The place at which reading a program text stops, for a message beside 02's 15, 16 and 17: the first place at which no token begins; the first token with
// which no derivation goes on, the text's end where the text ends too early; the first place where declarations have no numbers, the token at which the pass
// over names stops, the text's end where there are too many counts or bytes. 02 asks for no place.
#![tactic(auto)]

ghost use Rattle.std.specs.Prelude.{◌≡◌, [], ◌≤◌, ◌<◌, length};
ghost use Rattle.source.specs.Source.{max_text};
ghost use Rattle.tokens.specs.Marking.{marks};
ghost use Rattle.lexer.specs.Gaps.{Gap};
ghost use Rattle.text_shape.specs.Shape.{Shape.shape};
ghost use Rattle.uses.specs.Declaring.{Fronted};
ghost use Rattle.uses.specs.Stopping.{stops};
ghost use Rattle.text_place.specs.Place.{stuck_from, place};
ghost use Rattle.text_shape.specs.CodeNames.{first_defs_code};

use read_text::MAX_TEXT;
use text_shape::state;
use tokens::kind;
use uses::layout;

// The first place at which neither a token nor a gap begins; the text's end where there is none.
fn unmarked(text: &[u8]) -> usize
    ensures { result ≡ length (marks text.now) }
{
    let mut i = 0;
    // A token says how far the next one is.
    while let Some((_, n)) = lexer::token(&text[i..]) {
        i += n + 1;
    }
    i
}

// The first token with which no derivation goes on, of kinds in their places; the end where there is none.
fn stuck(kinds: &[u8], stack: &mut [u8]) -> usize
    requires { length kinds.now ≤ length stack.old }
    ensures { result ≡ stuck_from (shape first_defs_code []) kinds.now }
{
    let mut m = derive::START;
    for (i, k) in kinds.iter().enumerate() {
        if *k != kind::NONE {
            m = derive::step(stack, m, *k);
            if m.state == state::DEAD {
                return i;
            }
        }
    }
    kinds.len()
}

// Behind a derivation, by the roles that it gives the tokens: where the pass over names stops; the end where it does not.
fn unnamed(text: &[u8], roles: &[u8], stack: &mut [u8]) -> usize
    requires roles_len { (length roles.now ≡ length text.now) × (length text.now ≤ max_text) × (length roles.now < length stack.old) }
    requires fronted { Fronted roles.now }
    ensures { (result ≡ stops text.now roles.now) × (result ≤ length roles.now) }
{
    let mut numbers = [0u8; MAX_TEXT];
    let mut tables = [0usize; layout::TABLE_SIZE];
    match uses::numbers(text, roles, &mut tables, stack, &mut numbers) {
        Ok(_) => roles.len(),
        Err(stop) => stop.at,
    }
}

// The place at which reading a text of that many bytes at the most stops, in fresh memory for the kinds of its tokens and then their roles.
fn stopped(text: &[u8], kinds: &mut [u8], stack: &mut [u8]) -> usize
    requires kinds_len { (length kinds.old ≡ length text.now) × (length text.now ≤ max_text) × (length kinds.old < length stack.old) }
    requires gap { Gap kinds.old 0 (length kinds.old) }
    ensures { (result ≡ place text.now) × (result ≤ length text.now) }
{
    if !lexer::mark(text, kinds) {
        return unmarked(text);
    }
    let p = stuck(kinds, stack);
    if !derive::derived(kinds, stack) {
        return p;
    }
    unnamed(text, kinds, stack)
}

// The place at which reading a text stops.
pub fn place(text: &[u8]) -> usize
    ensures { (result ≡ place text.now) × (result ≤ length text.now) }
{
    let n = text.len();
    if MAX_TEXT < n {
        return MAX_TEXT;
    }
    let mut kinds = [0u8; MAX_TEXT];
    let mut stack = [0u8; MAX_TEXT + 1];
    stopped(text, &mut kinds[..n], &mut stack)
}
