// The commands of expressions (000, definition 2): an expression by those inside it, arguments by a loop.
ghost use Rattle.program.specs.Reader.{read_expr};
ghost use Rattle.emit.specs.Written.{Ready, Wrote, expr_words, make_words, make_at};

use crate::Put;
use crate::words::{add, coded, leaf, leaf_size, path, store};
use commands::kind::Kind;
use program::form;

// The commands of the expression at a place, from k on.
#[cycle(expr_make)]
pub(crate) fn expr(s: &[u8], ar: &[u8], at: usize, depth: usize, out: &mut [u64], k: usize) -> Put
    requires { Ready expr_words (read_expr ar.now s.now depth at) out.old k }
    ensures { Wrote expr_words (read_expr ar.now s.now depth at) out.old k result out.new }
{
    let tag = s[at];
    match tag {
        form::INV => {
            let p = expr(s, ar, at + 1, depth - 1, out, k);
            let v = coded(Kind::Not, 0, 0);
            add(out, p, v)
        }
        form::MAKE => make(s, ar, at + 1, depth - 1, out, k),
        form::PATH => path(s, at + 1, out, k),
        ..=form::THIS => {
            let v = leaf(s, at);
            store(out, k, v);
            Put {
                next: at + leaf_size(tag),
                at: k + 1,
            }
        }
        _ => {
            let p = expr(s, ar, at + 1, depth - 1, out, k);
            let next = p.next;
            let i = p.at;
            let q = expr(s, ar, next, depth - 1, out, i);
            let v = coded(Kind::Op, 0, u64::from(tag));
            add(out, q, v)
        }
    }
}

// The commands of a struct's arguments, and cons.
#[cycle(expr_make)]
pub(crate) fn make(s: &[u8], ar: &[u8], at: usize, depth: usize, out: &mut [u64], k: usize) -> Put
    requires { Ready make_words (make_at ar.now s.now depth at) out.old k }
    ensures { Wrote make_words (make_at ar.now s.now depth at) out.old k result out.new }
{
    let b = s[at];
    let i = usize::from(b);
    let n = ar[i];
    let mut p = Put {
        next: at + 1,
        at: k,
    };
    for x in 0..n {
        p = expr(s, ar, p.next, depth, out, p.at);
    }
    let v = coded(Kind::Cons, 0, u64::from(b));
    add(out, p, v)
}
