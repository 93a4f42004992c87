// Statements and bodies, which hold each other through ifs; the unread bytes fall.
ghost use Rattle.std.specs.Prelude.{◌≡◌, ◌<◌, ◌≤◌, length};
ghost use Rattle.types.specs.Refusals.{numbered};
ghost use Rattle.program.specs.Reader.{read_when, read_body, read_stmt};
ghost use Rattle.judge.specs.Facts.{stmt_facts, body_facts};
ghost use Rattle.read_stmts.specs.Done.{done, when_facts, DoneAhead, DoneBody, DoneBehind};

use crate::{StmtRead, simple};
use judge::Scope;
use judging::statement;
use program::form;
use read_exprs::read::Names;
use read_exprs::{expr, read};
use types::refusal::Refusal;

// A statement with at most depth levels of if.
#[cycle(body_stmt_when)]
fn stmt(s: &[u8], names: &Names, c: Scope, at: usize, depth: usize) -> StmtRead
    requires { (length names.now.ar.now ≤ 16) × (names.now.own < 16) }
    ensures value { numbered result ≡ done (λ t. stmt_facts names.now.ar.now names.now.types.now names.now.own t c) (read_stmt names.now.ar.now s.now depth at) }
    ensures done_ahead { DoneAhead s.now at result }
{
    if s.len() <= at {
        return Err(Refusal::WrongEnd);
    }
    let b = s[at];
    let k = at + 1;
    if b != form::WHEN {
        return simple::simple(s, names, c, b, k);
    }
    if depth == 0 {
        return Err(Refusal::WrongByte);
    }
    when(s, names, c, k, depth - 1)
}

// An if's condition, and its body with at most depth levels of if.
#[cycle(body_stmt_when)]
fn when(s: &[u8], names: &Names, c: Scope, at: usize, depth: usize) -> StmtRead
    requires { (length names.now.ar.now ≤ 16) × (names.now.own < 16) }
    ensures value { numbered result ≡ done (when_facts names.now.ar.now names.now.types.now names.now.own c)
        (read_when names.now.ar.now s.now (read_stmt names.now.ar.now s.now depth) at) }
    ensures done_behind { DoneBehind s.now at result }
{
    let (m, f) = expr::expr(s, names, c.live, at, types::EXPR_LEVELS)?;
    let (next, b) = body(s, names, c, m, depth)?;
    Ok((next, statement::branched(c, f, b)))
}

// A count, and so many statements with at most depth levels of if.
#[cycle(body_stmt_when)]
pub fn body(s: &[u8], names: &Names, c: Scope, at: usize, depth: usize) -> StmtRead
    requires { (length names.now.ar.now ≤ 16) × (names.now.own < 16) }
    ensures value { numbered result ≡ done (λ b. body_facts names.now.ar.now names.now.types.now names.now.own b c)
        (read_body names.now.ar.now s.now (read_stmt names.now.ar.now s.now depth) at) }
    ensures done_body { DoneBody s.now at result }
{
    let (n, m) = read::ranged(s, 0, types::MAX_STATEMENTS + 1, at)?;
    let mut done = statement::nothing(c);
    let mut next = m;
    for i in 0..n {
        let (behind, a) = stmt(s, names, done.after, next, depth)?;
        done = statement::followed(done, a);
        next = behind;
    }
    Ok((next, done))
}
