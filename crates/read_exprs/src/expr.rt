// Expressions with expressions inside: not, construct and the operators; the unread bytes fall. Arguments are read by a loop.
ghost use Rattle.std.specs.Prelude.{◌≡◌, ◌<◌, ◌≤◌, length};
ghost use Rattle.types.specs.Refusals.{numbered};
ghost use Rattle.program.specs.Reader.{read_make, read_expr};
ghost use Rattle.judge.specs.Facts.{expr_facts};
ghost use Rattle.read_exprs.specs.Told.{told, made_facts, Ahead, Behind};

use crate::read::{ExprRead, Names};
use crate::{leaf, read};
use judging::expression;
use program::form;
use types::refusal::Refusal;

// An expression of at most depth levels.
#[cycle(construct_expr)]
pub fn expr(s: &[u8], names: &Names, live: u64, at: usize, depth: usize) -> ExprRead
    requires { (length names.now.ar.now ≤ 16) × (names.now.own < 16) }
    ensures value { numbered result ≡ told (expr_facts names.now.ar.now names.now.types.now names.now.own live) (read_expr names.now.ar.now s.now depth at) }
    ensures ahead { Ahead s.now at result }
{
    if s.len() <= at {
        return Err(Refusal::WrongEnd);
    }
    if depth == 0 {
        return Err(Refusal::WrongByte);
    }
    let b = s[at];
    // Of two copies of the reference only the one that is handed on has to stand in memory.
    let rest = s;
    let k = at + 1;
    let d = depth - 1;
    if b == form::INV {
        let (m, f) = expr(rest, names, live, k, d)?;
        return Ok((m, expression::negated(f)));
    }
    if b == form::MAKE {
        return construct(rest, names, live, k, d);
    }
    if b < form::EQ {
        return leaf::leaf(rest, names, live, b, k);
    }
    if form::OR < b {
        return Err(Refusal::WrongByte);
    }
    let (m, f) = expr(rest, names, live, k, d)?;
    let (next, g) = expr(rest, names, live, m, d)?;
    Ok((next, expression::combined(b, f, g)))
}

// A struct and an expression of at most depth levels for each of its parameters.
#[cycle(construct_expr)]
pub fn construct(s: &[u8], names: &Names, live: u64, at: usize, depth: usize) -> ExprRead
    requires { (length names.now.ar.now ≤ 16) × (names.now.own < 16) }
    ensures value { numbered result ≡ told (made_facts names.now.ar.now names.now.types.now names.now.own live)
        (read_make names.now.ar.now s.now (read_expr names.now.ar.now s.now depth) at) }
    ensures behind { Behind s.now at result }
{
    let (k, m) = read::ranged(s, 0, names.ar.len(), at)?;
    let n = judging::path::look(names.ar, usize::from(k));
    let mut all = expression::no_args();
    let mut next = m;
    for x in 0..n {
        let (behind, f) = expr(s, names, live, next, depth)?;
        let t = judging::path::type_at(names.types, k, x);
        all = expression::appended(x, t, all, f);
        next = behind;
    }
    Ok((next, expression::constructed(k, all)))
}
