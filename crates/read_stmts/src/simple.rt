// Statements with no statement inside: declarations, updates, constructs.
ghost use Rattle.std.specs.Prelude.{◌≡◌, ℕ, ◌<◌, ◌≤◌, length};
ghost use Rattle.types.specs.Refusals.{numbered};
ghost use Rattle.program.specs.Tree.{Expr, Stmts};
ghost use Rattle.program.specs.Reader.{Result, kind, read_expr, read_make, read_declare, read_update, rule_stmt};
ghost use Rattle.judge.specs.Facts.{stmt_facts};
ghost use Rattle.read_stmts.specs.Done.{done, declare_facts, update_facts, create_facts, local_facts, labelled};
ghost use Rattle.read_stmts.specs.Done.{read_named, DoneBehind};
ghost use Rattle.program.specs.Forms.{when_form};

use crate::StmtRead;
use judge::{Done, Facts, Scope};
use judging::statement;
use program::form;
use read_exprs::read::Names;
use read_exprs::{expr, path, read};
use types::refusal::Refusal;

// The local of a declaration with type t, and its value.
fn local(s: &[u8], names: &Names, c: Scope, t: u8, at: usize) -> StmtRead
    requires { ((length names.now.ar.now ≤ 16) × (names.now.own < 16)) × (t < 255) }
    ensures value { numbered result ≡ done (local_facts names.now.ar.now names.now.types.now names.now.own c t) (read_named names.now.ar.now s.now at) }
    ensures done_behind { DoneBehind s.now at result }
{
    let (x, m) = read::ranged(s, types::FIRST_LOCAL, types::VARIABLES, at)?;
    let (next, f) = expr::expr(s, names, c.live, m, types::EXPR_LEVELS)?;
    let local = x - judging::path::FIRST_LOCAL;
    Ok((next, statement::declared(c, t, local, f)))
}

fn declare(s: &[u8], names: &Names, c: Scope, at: usize) -> StmtRead
    requires { (length names.now.ar.now ≤ 16) × (names.now.own < 16) }
    ensures value { numbered result ≡ done (declare_facts names.now.ar.now names.now.types.now names.now.own c) (read_declare names.now.ar.now s.now at) }
    ensures done_behind { DoneBehind s.now at result }
{
    let (t, m) = read::type_byte(s, names.ar.len(), at)?;
    local(s, names, c, t, m)
}

fn update(s: &[u8], names: &Names, c: Scope, at: usize) -> StmtRead
    requires { (length names.now.ar.now ≤ 16) × (names.now.own < 16) }
    ensures value { numbered result ≡ done (update_facts names.now.ar.now names.now.types.now names.now.own c) (read_update names.now.ar.now s.now at) }
    ensures done_behind { DoneBehind s.now at result }
{
    let (m, n, j) = path::path(s, names, c.live, at)?;
    let (next, f) = expr::expr(s, names, c.live, m, types::EXPR_LEVELS)?;
    Ok((next, statement::updated(c, n, j, f)))
}

// A construct whose label stays.
fn labelled(c: Scope, f: Facts) -> Done
    ensures { result ≡ labelled c f }
{
    Done {
        size: f.size,
        height: f.peak,
        growth: 1,
        fault: f.fault,
        after: c,
    }
}

fn create(s: &[u8], names: &Names, c: Scope, at: usize) -> StmtRead
    requires { (length names.now.ar.now ≤ 16) × (names.now.own < 16) }
    ensures value { numbered result ≡ done (create_facts names.now.ar.now names.now.types.now names.now.own c)
        (read_make names.now.ar.now s.now (read_expr names.now.ar.now s.now 16) at) }
    ensures done_behind { DoneBehind s.now at result }
{
    let (next, f) = expr::construct(s, names, c.live, at, types::EXPR_LEVELS)?;
    Ok((next, labelled(c, f)))
}

// What stands after a byte that opens no if.
pub fn simple(s: &[u8], names: &Names, c: Scope, b: u8, at: usize) -> StmtRead
    requires ar_len_bound { (length names.now.ar.now ≤ 16) × (names.now.own < 16) }
    requires fact { b ≡ when_form → ⊥ }
    ensures by_index { (w : ℕ → ℕ → Result (Expr × Stmts)) (p : ℕ)
        → numbered result ≡ done (λ t. stmt_facts names.now.ar.now names.now.types.now names.now.own t c) (rule_stmt names.now.ar.now s.now w p at (kind b)) }
    ensures done_behind { DoneBehind s.now at result }
{
    if b == form::DECLARE {
        return declare(s, names, c, at);
    }
    if b == form::UPDATE {
        return update(s, names, c, at);
    }
    if b == form::CREATE {
        return create(s, names, c, at);
    }
    Err(Refusal::WrongByte)
}
