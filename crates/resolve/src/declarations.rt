// What a text declares (02 §1), by tables of places: rows of parameters, their types, steps, and the names of steps.
ghost use Rattle.std.specs.Prelude.{◌≡◌, ℕ, Bool, true, not, ◌<◌, ◌^◌, ◌+◌, ◌-◌, ◌≤◌, min, [], length, take, drop, leb, ltb};
ghost use Rattle.std.proofs.lemmas.List.Edits.{sets};
ghost use Rattle.types.specs.Limits.{max_steps};
ghost use Rattle.resolve.specs.Named.{name_at, names_at, sought};
ghost use Rattle.resolve.specs.Checks.{row_ok, rows_ok, narrow, type_here, byte_of, types_at, known, firsts, between_all};
ghost use Rattle.text_shape.specs.RoleNames.{first_type_role};

use crate::{names, tables};
use lexer::bytes;
use text_shape::role;

// Whether a test holds of each number of a row and the next.
fn between_all<F: Fn(usize, usize) -> bool>(rows: &[usize], test: F) -> bool
    requires { F.IsAlwaysCallable test }
    ensures { (t : ℕ → ℕ → Bool) → ((a b : ℕ) (r : Bool) → a < 2 ^ 64 → b < 2 ^ 64 → F.post test a b r → r ≡ t a b) → result ≡ between_all t rows.now }
{
    for i in 1..rows.len() {
        if !test(rows[i - 1], rows[i]) {
            return false;
        }
    }
    true
}

// Whether a row of parameters, from a to b, is one of few with different names.
fn row_ok(text: &[u8], pars: &[usize], a: usize, b: usize) -> bool
    ensures { result ≡ row_ok text.now pars.now a b }
{
    a <= b && b <= pars.len() && b - a <= types::MAX_PARAMS && tables::distinct(text, &pars[a..b])
}

// Whether every row of parameters is.
pub fn rows_ok(text: &[u8], pars: &[usize], rows: &[usize]) -> bool
    ensures { result ≡ rows_ok text.now pars.now rows.now }
{
    between_all(rows, |a, b| row_ok(text, pars, a, b))
}

// Whether so many steps are few.
fn few(a: usize, b: usize) -> bool
    ensures { result ≡ leb (b - a) max_steps }
{
    b.saturating_sub(a) <= types::MAX_STEPS
}

// Whether every struct has few steps.
pub fn narrow(rows: &[usize]) -> bool
    ensures { result ≡ narrow rows.now }
{
    between_all(rows, few)
}

// The byte of the type at a place, by its number among the four kinds: 16 and the count of structs where its struct is not there.
pub fn type_byte(text: &[u8], structs: &[usize], n: u8, at: usize) -> usize
    requires { length structs.now ≤ 16 }
    ensures { result ≡ byte_of (names_at text.now structs.now) (type_here n (drop at text.now)) }
{
    if n <= types::BOOL {
        return usize::from(n);
    }
    usize::from(types::STRUCT) + names::lookup(text, structs, at).unwrap_or(structs.len())
}

// The number of a type among the four kinds, by the role of a parameter's type.
fn type_kind(role: u8) -> u8
    ensures { result ≡ role - first_type_role }
{
    role.saturating_sub(role::FIRST_TYPE)
}

// The bytes of the types at some places into a table, as many as it has, and whether each is one: up to one that is none.
pub fn types(
    text: &[u8],
    roles: &[u8],
    structs: &[usize],
    places: &[usize],
    table: &mut [usize],
) -> bool
    requires { length structs.now ≤ 16 }
    ensures value { result ≡ known (length structs.now)
        (types_at text.now roles.now (names_at text.now structs.now) places.now) }
    ensures table_after { result ≡ true → table.new ≡ sets table.old 0
        (types_at text.now roles.now (names_at text.now structs.now) places.now) }
{
    for (i, at) in places.iter().enumerate() {
        let b = type_byte(text, structs, type_kind(bytes::byte(roles, *at)), *at);
        if b >= usize::from(types::STRUCT) + structs.len() {
            return false;
        }
        tables::put(table, i, b);
    }
    true
}

// Whether the name at a place is none of the first n of some.
fn is_new(text: &[u8], table: &[usize], n: usize, at: usize) -> bool
    requires { n ≤ length table.now }
    ensures { result ≡ not (ltb (sought (name_at text.now at) (names_at text.now (take n table.now))) n) }
{
    names::lookup(text, &table[..n], at).is_none()
}

// The names of steps, each at its first place, into a table; and how many there are, or one more than the table has.
pub fn step_names(text: &[u8], places: &[usize], table: &mut [usize]) -> usize
    ensures value { result ≡ min (length (firsts text.now [] places.now)) (1 + length table.old) }
    ensures table_after { table.new ≡ sets table.old 0 (firsts text.now [] places.now) }
{
    let mut n = 0;
    for at in places {
        let new = is_new(text, table, n, *at);
        n = tables::add(table, n, *at, new);
        if n > table.len() {
            return n;
        }
    }
    n
}
