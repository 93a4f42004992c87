// Expressions with no expression inside: paths, literals, null, this.
ghost use Rattle.std.specs.Prelude.{◌≡◌, ℕ, suc, ◌<◌, ◌≤◌, length};
ghost use Rattle.types.specs.Refusals.{numbered};
ghost use Rattle.types.specs.Types.{code};
ghost use Rattle.program.specs.Tree.{Expr};
ghost use Rattle.program.specs.Reader.{Result, form, ranged, read_word, read_path, read_type, rule_expr};
ghost use Rattle.judge.specs.Facts.{pushed, travelled, path_of, expr_facts};
ghost use Rattle.read_exprs.specs.Told.{told, Behind};
ghost use Rattle.program.specs.Forms.{inv_form, make_form, eq_form};

use crate::read::{ExprRead, Names};
use crate::{path, read};
use judging::expression;
use program::form;
use types::refusal::Refusal;

// A number of four bytes, pushed as a value of type t.
fn word(s: &[u8], t: u8, at: usize) -> ExprRead
    requires { at ≤ length s.now }
    ensures value { numbered result ≡ told (λ (n : ℕ). pushed t) (read_word s.now 4 at) }
    ensures behind { Behind s.now at result }
{
    if s.len() - at < 4 {
        return Err(Refusal::WrongEnd);
    }
    Ok((at + 4, expression::pushed(t)))
}

// The byte of a Bool.
fn bool_byte(s: &[u8], at: usize) -> ExprRead
    ensures value { numbered result ≡ told (λ (n : ℕ). pushed 2) (ranged s.now 0 2 at) }
    ensures behind { Behind s.now at result }
{
    let (_, m) = read::ranged(s, 0, 2, at)?;
    Ok((m, expression::pushed(types::BOOL)))
}

// The type of a null, where there are n structs.
fn null(s: &[u8], n: usize, at: usize) -> ExprRead
    ensures value { numbered result ≡ told (λ t. pushed (code t)) (read_type s.now n at) }
    ensures behind { Behind s.now at result }
{
    let (b, m) = read::type_byte(s, n, at)?;
    Ok((m, expression::pushed(b)))
}

// A path as an expression.
fn travel(s: &[u8], names: &Names, live: u64, at: usize) -> ExprRead
    ensures value { numbered result ≡ told (λ p. travelled (suc (length p.1)) (path_of names.now.ar.now names.now.types.now names.now.own live p.0 p.1))
        (read_path s.now at) }
    ensures behind { Behind s.now at result }
{
    let (m, n, j) = path::path(s, names, live, at)?;
    Ok((m, expression::travelled(n, j)))
}

// What stands after a byte that opens no form with an expression inside.
pub fn leaf(s: &[u8], names: &Names, live: u64, b: u8, at: usize) -> ExprRead
    requires at_in_bounds { (at ≤ length s.now) × (names.now.own < 16) }
    requires fact { ((b ≡ inv_form → ⊥) × (b ≡ make_form → ⊥)) × (b < eq_form) }
    ensures by_index { (rec : ℕ → Result Expr) (p : ℕ)
        → numbered result ≡ told (expr_facts names.now.ar.now names.now.types.now names.now.own live) (rule_expr names.now.ar.now s.now rec p at (form b)) }
    ensures behind { Behind s.now at result }
{
    if b == form::PATH {
        return travel(s, names, live, at);
    }
    if b == form::INT {
        return word(s, types::INT, at);
    }
    if b == form::NAT {
        return word(s, types::NAT, at);
    }
    if b == form::BOOL {
        return bool_byte(s, at);
    }
    if b == form::NULL {
        return null(s, names.ar.len(), at);
    }
    if b == form::THIS {
        return Ok((at, expression::pushed(types::STRUCT + names.own)));
    }
    Err(Refusal::WrongByte)
}
