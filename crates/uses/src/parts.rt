// What a bracket, a brace, a comma, a semicolon or a literal does to the pass over uses (02 §1; `resolve/specs/Using.antt`). Arguments due stand at the
// front of the stack, how many locals were alive before each open if at its end.
ghost use Rattle.std.specs.Prelude.{◌≡◌, ℕ, ◌+◌, ◌-◌, ◌≤◌, ◌<◌, List, length, drop};
ghost use Rattle.resolve.specs.Using.{use_goes, use_closes, use_dies, use_opens, use_part};
ghost use Rattle.resolve.specs.UsingAt.{part_at, use_kind};
ghost use Rattle.std.proofs.Math.Option.{some};
ghost use Rattle.uses.specs.Lent.{use_in, Roomy, passed_in, Next};
ghost use Rattle.uses.specs.Seeing.{dued, lived, word_passed};
ghost use Rattle.text_shape.specs.RoleNames.{first_part_role};
ghost use Rattle.types.specs.Limits.{max_locals};

use crate::{Passed, Scope};
use resolve::literals;
use text_shape::role;
use tokens::kind;

// With so many argument lists open.
fn dued(c: Scope, n: usize) -> Scope
    ensures { result ≡ dued c n }
{
    Scope { dues: n, ..c }
}

// With other locals and open ifs, all of them alive.
fn lived(c: Scope, met: usize, n: usize, bodies: usize) -> Scope
    ensures { result ≡ lived c met n bodies }
{
    Scope {
        met,
        living: n,
        fresh: 0,
        bodies,
        ..c
    }
}

// An argument list is closed where n arguments are due.
fn close(stack: &[u8], n: u8, c: Scope) -> Passed
    requires { c.dues ≤ length stack.now }
    ensures by_index { (x l o : List ℕ) → passed_in x l stack.now result o
        ≡ use_closes n (use_in x l stack.now c o) (use_in x l stack.now c o).dues }
    ensures by_index_2 { (t l : List ℕ) → Roomy t l c → Next t l c result }
{
    let h = c.dues.checked_sub(1)?;
    if stack[h] != n {
        return None;
    }
    Some((dued(c, h), None))
}

// An argument is at its end, and another follows.
fn go_on(stack: &mut [u8], c: Scope) -> Passed
    requires { c.dues + c.bodies ≤ length stack.old }
    ensures by_index { (x l o : List ℕ) → passed_in x l stack.new result o
        ≡ use_goes (use_in x l stack.old c o) (use_in x l stack.old c o).dues }
    ensures by_index_2 { (t l : List ℕ) → Roomy t l c → Next t l c result }
    ensures stack_len_unchanged { length stack.new ≡ length stack.old }
{
    let h = c.dues.checked_sub(1)?;
    let m = stack[h].checked_sub(1)?;
    stack[h] = m;
    Some((c, None))
}

// An if is opened.
fn open_if(stack: &mut [u8], c: Scope) -> Passed
    requires { (c.dues + c.bodies < length stack.old) × (c.living ≤ max_locals) × (c.fresh ≤ c.living) }
    ensures o_after { (x t l o : List ℕ) → Roomy t l c → passed_in x l stack.new result o ≡ some (use_opens (use_in x l stack.old c o)) }
    ensures by_index { (t l : List ℕ) → Roomy t l c → Next t l c result }
    ensures stack_len_unchanged { length stack.new ≡ length stack.old }
{
    let n = c.living - c.fresh;
    let b = c.bodies;
    let h = stack.len() - (b + 1);
    stack[h] = n as u8;
    Some((lived(c, c.met, n, b + 1), None))
}

// It is closed, and its locals are dead.
fn close_if(stack: &[u8], c: Scope) -> Passed
    requires { c.bodies ≤ length stack.now }
    ensures o_value { (x t l o : List ℕ) → Roomy t l c → passed_in x l stack.now result o
        ≡ use_dies (use_in x l stack.now c o) (use_in x l stack.now c o).heights }
    ensures by_index { (t l : List ℕ) → Roomy t l c → Next t l c result }
{
    let left = c.bodies.checked_sub(1)?;
    let n = usize::from(stack[stack.len() - c.bodies]);
    Some((lived(c, c.met, c.living.min(n), left), None))
}

// Brackets, braces and commas.
pub(crate) fn part_role(stack: &mut [u8], role: u8, c: Scope) -> Passed
    requires { (c.dues + c.bodies < length stack.old) × (c.living ≤ max_locals) × (c.fresh ≤ c.living) × (first_part_role ≤ role) }
    ensures o_after { (x t l o : List ℕ) → Roomy t l c → passed_in x l stack.new result o
        ≡ use_part (part_at role) (use_in x l stack.old c o) }
    ensures by_index { (t l : List ℕ) → Roomy t l c → Next t l c result }
    ensures stack_len_unchanged { length stack.new ≡ length stack.old }
{
    match role {
        role::ARGS_CLOSE => close(stack, 1, c),
        role::NO_ARGS_CLOSE => close(stack, 0, c),
        role::BODY_CLOSE => Some((lived(c, 0, 0, 0), None)),
        role::THEN_OPEN => open_if(stack, c),
        role::THEN_CLOSE => close_if(stack, c),
        role::ARG_COMMA => go_on(stack, c),
        _ => Some((c, None)),
    }
}

// A literal is of its type, or not.
fn of_type(w: Option<u32>, c: Scope) -> Passed
    ensures { result ≡ word_passed w c }
{
    w?;
    Some((c, None))
}

// A token whose kind says it all: behind a semicolon a local is alive.
pub(crate) fn kind_role(text: &[u8], at: usize, kind: u8, c: Scope) -> Passed
    requires { at < length text.now }
    ensures by_index { (l k o : List ℕ) → passed_in text.now l k result o
        ≡ use_kind kind (drop at text.now) (use_in text.now l k c o) }
    ensures by_index_2 { (t l : List ℕ) → Roomy t l c → Next t l c result }
{
    match kind {
        kind::SEMICOLON => Some((lived(c, c.met, c.living, c.bodies), None)),
        kind::INT => of_type(literals::int_word(text, at), c),
        kind::NAT => of_type(literals::nat_word(text, at), c),
        _ => Some((c, None)),
    }
}
