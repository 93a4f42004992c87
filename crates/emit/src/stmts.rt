// The commands of statements (000, definition 2): an if by its body, the statements of a body by a loop.
ghost use Rattle.program.specs.Reader.{read_stmt, read_declare, read_update};
ghost use Rattle.emit.specs.Written.{Ready, Wrote, stmt_words, body_words, when_words, block_words, declare_words, update_words, body_at, when_at};

use crate::Put;
use crate::exprs::{expr, make};
use crate::words::{add, coded, store, target};
use commands::kind::Kind;
use program::form;

// A declaration: the expression, push this, and a wr of the local.
fn declare(s: &[u8], ar: &[u8], at: usize, out: &mut [u64], k: usize) -> Put
    requires { Ready declare_words (read_declare ar.now s.now at) out.old k }
    ensures { Wrote declare_words (read_declare ar.now s.now at) out.old k result out.new }
{
    let p = expr(s, ar, at + 2, types::EXPR_LEVELS, out, k);
    let v = coded(Kind::This, 0, 0);
    let q = add(out, p, v);
    let w = coded(Kind::Wr, 0, u64::from(s[at + 1]));
    add(out, q, w)
}

// An update: the expression, which stands behind the path, and then the path.
fn update(s: &[u8], ar: &[u8], at: usize, out: &mut [u64], k: usize) -> Put
    requires { Ready update_words (read_update ar.now s.now at) out.old k }
    ensures { Wrote update_words (read_update ar.now s.now at) out.old k result out.new }
{
    let n = usize::from(s[at]);
    let p = expr(s, ar, at + 1 + n, types::EXPR_LEVELS, out, k);
    let i = p.at;
    let q = target(s, at, out, i);
    Put {
        next: p.next,
        at: q.at,
    }
}

// The commands of the statement at a place, from k on.
#[cycle(block_body_stmt_when)]
fn stmt(s: &[u8], ar: &[u8], at: usize, depth: usize, out: &mut [u64], k: usize) -> Put
    requires { Ready stmt_words (read_stmt ar.now s.now depth at) out.old k }
    ensures { Wrote stmt_words (read_stmt ar.now s.now depth at) out.old k result out.new }
{
    match s[at] {
        form::WHEN => when(s, ar, at + 1, depth - 1, out, k),
        form::DECLARE => declare(s, ar, at + 1, out, k),
        form::UPDATE => update(s, ar, at + 1, out, k),
        _ => make(s, ar, at + 1, types::EXPR_LEVELS, out, k),
    }
}

// An if: its condition and its block.
#[cycle(block_body_stmt_when)]
fn when(s: &[u8], ar: &[u8], at: usize, depth: usize, out: &mut [u64], k: usize) -> Put
    requires { Ready when_words (when_at ar.now s.now depth at) out.old k }
    ensures { Wrote when_words (when_at ar.now s.now depth at) out.old k result out.new }
{
    let p = expr(s, ar, at, types::EXPR_LEVELS, out, k);
    let next = p.next;
    let i = p.at;
    block(s, ar, next, depth, out, i)
}

// The body of an if behind its `if n`, which is stored once n is known.
#[cycle(block_body_stmt_when)]
fn block(s: &[u8], ar: &[u8], at: usize, depth: usize, out: &mut [u64], k: usize) -> Put
    requires { Ready block_words (body_at ar.now s.now depth at) out.old k }
    ensures { Wrote block_words (body_at ar.now s.now depth at) out.old k result out.new }
{
    let p = body(s, ar, at, depth, out, k + 1);
    let j = p.at;
    let n = j - k - 1;
    let v = coded(Kind::If, 0, n as u64);
    store(out, k, v);
    p
}

// A statement count and that many statements.
#[cycle(block_body_stmt_when)]
pub(crate) fn body(s: &[u8], ar: &[u8], at: usize, depth: usize, out: &mut [u64], k: usize) -> Put
    requires { Ready body_words (body_at ar.now s.now depth at) out.old k }
    ensures { Wrote body_words (body_at ar.now s.now depth at) out.old k result out.new }
{
    let n = s[at];
    let mut p = Put {
        next: at + 1,
        at: k,
    };
    for x in 0..n {
        p = stmt(s, ar, p.next, depth, out, p.at);
    }
    p
}
