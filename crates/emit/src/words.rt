// A command's word, and the words of the forms that hold no other expression.
ghost use Rattle.std.specs.Prelude.{◌≡◌, ℕ, ◌+◌, ◌<◌, ◌≤◌, length, get_or, set};
ghost use Rattle.std.proofs.lemmas.List.Edits.{sets};
ghost use Rattle.types.specs.Limits.{nat_end};
ghost use Rattle.commands.specs.Coding.{coded};
ghost use Rattle.commands.specs.KindCodes.{kind_code};
ghost use Rattle.program.specs.Reader.{read_path};
ghost use Rattle.emit.specs.Written.{Ready, Wrote, path_words, target_words};
ghost use Rattle.emit.specs.Leaf.{leaf_size, leaf_word, null_word, rd_words};
ghost use Rattle.program.specs.Forms.{int_form};

use crate::Put;
use commands::kind::Kind;
use little_endian::word_at;
use program::form;

// The word of a command: its kind, the type byte of a push, its operand.
pub(crate) fn coded(kind: Kind, typ: u64, operand: u64) -> u64
    requires { (typ < 256) × (operand < nat_end) }
    ensures { result ≡ coded (kind_code kind) typ operand }
{
    u64::from(kind) + 256 * typ + types::NAT_END * operand
}

pub(crate) fn store(out: &mut [u64], k: usize, v: u64)
    requires { k < length out.old }
    ensures { out.new ≡ set out.old k v }
{
    out[k] = v;
}

// A word behind what was written.
pub(crate) fn add(out: &mut [u64], p: Put, v: u64) -> Put
    requires { p.at < length out.old }
    ensures { (result.next ≡ p.next) × (result.at ≡ p.at + 1) × (out.new ≡ set out.old p.at v) }
{
    let k = p.at;
    store(out, k, v);
    Put {
        next: p.next,
        at: k + 1,
    }
}

// The push of a type's default.
fn null_word(b: u8) -> u64
    ensures { result ≡ null_word b }
{
    let v = types::default_word(b);
    coded(Kind::Push, u64::from(b), u64::from(v))
}

pub(crate) fn leaf_size(tag: u8) -> usize
    ensures { result ≡ leaf_size tag }
{
    if tag < form::BOOL {
        return 5;
    }
    if tag < form::THIS {
        return 2;
    }
    1
}

// The word of a literal, of a null or of this.
pub(crate) fn leaf(s: &[u8], at: usize) -> u64
    requires { (int_form ≤ get_or s.now at 0) × (at + leaf_size (get_or s.now at 0) ≤ length s.now) }
    ensures { result ≡ leaf_word s.now at }
{
    let tag = s[at];
    if tag < form::BOOL {
        let v = word_at(s, at + 1);
        return coded(Kind::Push, u64::from(tag - form::INT), v);
    }
    if tag < form::THIS {
        let b = s[at + 1];
        if tag < form::NULL {
            return coded(Kind::Push, u64::from(types::BOOL), u64::from(b));
        }
        return null_word(b);
    }
    coded(Kind::This, 0, 0)
}

// An rd of each of n variables.
fn reads(s: &[u8], at: usize, n: u8, out: &mut [u64], k: usize) -> Put
    requires { (at + n ≤ length s.now) × (k + n ≤ length out.old) }
    ensures { (result.next ≡ at + n) × (result.at ≡ k + n) × (out.new ≡ sets out.old k (rd_words s.now at n)) }
{
    for x in 0..n {
        let i = usize::from(x);
        let v = coded(Kind::Rd, 0, u64::from(s[at + i]));
        store(out, k + i, v);
    }
    Put {
        next: at + usize::from(n),
        at: k + usize::from(n),
    }
}

// Push this, and an rd of each variable of the path at a place.
pub(crate) fn path(s: &[u8], at: usize, out: &mut [u64], k: usize) -> Put
    requires { Ready path_words (read_path s.now at) out.old k }
    ensures { Wrote path_words (read_path s.now at) out.old k result out.new }
{
    let n = s[at];
    let v = coded(Kind::This, 0, 0);
    store(out, k, v);
    reads(s, at + 1, n, out, k + 1)
}

// Push this, an rd of each variable of the path at a place but the last, and a wr of the last.
pub(crate) fn target(s: &[u8], at: usize, out: &mut [u64], k: usize) -> Put
    requires { Ready target_words (read_path s.now at) out.old k }
    ensures { Wrote target_words (read_path s.now at) out.old k result out.new }
{
    let n = s[at];
    let v = coded(Kind::This, 0, 0);
    store(out, k, v);
    let p = reads(s, at + 1, n - 1, out, k + 1);
    let last = p.next;
    let i = p.at;
    let w = coded(Kind::Wr, 0, u64::from(s[last]));
    store(out, i, w);
    Put {
        next: last + 1,
        at: i + 1,
    }
}
