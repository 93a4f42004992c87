// Whether a text's tokens have a derivation (02 §1, §2), and the role that it gives each of them: token by token over a lent stack, so that no function follows
// the nesting of the text.
#![tactic(auto)]

pub mod roles;
pub mod table;

ghost use Rattle.std.specs.Prelude.{◌≡◌, [], ◌+◌, ◌<◌, ◌≤◌, length, set};
ghost use Rattle.tokens.specs.Marking.{kinds_in};
ghost use Rattle.text_shape.specs.Shape.{Shape.shape, act, acted_below, move, sample, derived};
ghost use Rattle.text_shape.specs.RoleMarks.{mark, role_codes, placed};
ghost use Rattle.derive.specs.Table.{entries, act_at, mark_at};
ghost use Rattle.text_shape.specs.CodeNames.{codes};
ghost use Rattle.derive.specs.Held.{held, Kept, ends};
ghost use Rattle.text_shape.specs.CodeNames.{dead_code, first_defs_code};

use lexer::gaps;
use text_shape::{Act, state};
use tokens::kind;

// The kinds in a row of the tables.
const KINDS: usize = kind::COUNT as usize;

// A state, and how many places are open on the stack: two numbers that are copied. The stack's memory stays with the caller, who lends it for each token.
#[derive(Clone, Copy)]
pub struct Mark {
    pub state: u8,
    pub height: usize,
}

// Before the first token.
pub const START: Mark = Mark {
    state: state::START,
    height: 0,
};

fn dead() -> Mark
    ensures { (result.state ≡ dead_code) × (result.height ≡ 0) }
{
    Mark {
        state: state::DEAD,
        height: 0,
    }
}

// The place of an act and of a role in the tables, of a code.
fn entry(q: u8, k: u8) -> usize
    requires { q < codes }
    ensures { (result < entries) × (act_at result ≡ act q (sample k)) × (mark_at result ≡ mark q (sample k)) }
{
    let row = usize::from(q) * KINDS;
    if k < kind::COUNT {
        row + usize::from(k)
    } else {
        row
    }
}

// The same, of a byte.
pub(crate) fn index(q: u8, k: u8) -> usize
    ensures { (result < entries) × (act_at result ≡ act q (sample k)) × (mark_at result ≡ mark q (sample k)) }
{
    if q < state::COUNT { entry(q, k) } else { 0 }
}

// A place is opened.
fn pushed(stack: &mut [u8], h: usize, q: u8, place: u8) -> Mark
    requires { h < length stack.old }
    ensures state_value { (result.state ≡ q) × (result.height ≡ h + 1) }
    ensures stack_after { stack.new ≡ set stack.old h place }
{
    stack[h] = place;
    Mark {
        state: q,
        height: h + 1,
    }
}

// What was opened last takes a token.
fn below(stack: &mut [u8], h: usize, k: u8) -> Mark
    requires { h ≤ length stack.old }
    ensures kept { Kept result.state result.height stack.new (acted_below (held stack.old h) (sample k)) }
    ensures height_le_h { (result.height ≤ h) × (length stack.new ≡ length stack.old) }
{
    if h == 0 {
        return dead();
    }
    let i = h - 1;
    let q = stack[i];
    match table::act_at(index(q, k)) {
        Act::Go(p) => Mark {
            state: p,
            height: i,
        },
        Act::Open(p, place) => pushed(stack, i, p, place),
        Act::Below | Act::Stop => dead(),
    }
}

// One token, by the tables, with its place in them.
fn moved(stack: &mut [u8], m: Mark, k: u8, i: usize) -> Mark
    requires { (m.height < length stack.old) × (i < entries) × (act_at i ≡ act m.state (sample k)) }
    ensures kept { Kept result.state result.height stack.new (move (shape m.state (held stack.old m.height)) (sample k)) }
    ensures height_bound { (result.height ≤ m.height + 1) × (length stack.new ≡ length stack.old) }
{
    let h = m.height;
    match table::act_at(i) {
        Act::Go(p) => Mark {
            state: p,
            height: h,
        },
        Act::Open(p, place) => pushed(stack, h, p, place),
        Act::Below => below(stack, h, k),
        Act::Stop => dead(),
    }
}

// One token.
pub fn step(stack: &mut [u8], m: Mark, k: u8) -> Mark
    requires { m.height < length stack.old }
    ensures kept { Kept result.state result.height stack.new (move (shape m.state (held stack.old m.height)) (sample k)) }
    ensures height_bound { (result.height ≤ m.height + 1) × (length stack.new ≡ length stack.old) }
{
    moved(stack, m, k, index(m.state, k))
}

// Behind an item of the schedule itself.
fn ends(q: u8, h: usize) -> bool
    ensures { result ≡ ends q h }
{
    h == 0 && matches!(q, state::BEHIND_EXECUTION | state::BEHIND_ITEM)
}

// Whether the tokens have a derivation. A kind stands at each place where a token begins, 0 at the others; each kind gives way to the token's role.
pub fn derived(kinds: &mut [u8], stack: &mut [u8]) -> bool
    requires { length kinds.old ≤ length stack.old }
    ensures value { result ≡ derived (kinds_in kinds.old) }
    ensures kinds_after { kinds.new ≡ placed kinds.old (role_codes (shape first_defs_code []) (kinds_in kinds.old)) }
{
    let mut m = START;
    let mut last = 0;
    let mut i = gaps::first(kinds);
    // A gap between tokens says how far the next one is.
    while i < kinds.len() {
        let k = kinds[i];
        let e = entry(m.state, k);
        let role = roles::role(stack, m, k, e);
        roles::leave(kinds, i, last, role, roles::renamed(m.state, k));
        m = moved(stack, m, k, e);
        last = i;
        i = gaps::next(kinds, i + 1);
    }
    ends(m.state, m.height)
}
