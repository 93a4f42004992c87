// What is computed of an expression from what was computed of its parts (01, numbers 6 to 8).
ghost use Rattle.std.specs.Prelude.{◌≡◌, ◌&&◌, ◌+◌, ◌<◌, ◌^◌, eqb};
ghost use Rattle.program.specs.Tree.{Op};
ghost use Rattle.program.specs.Reader.{form, Form.form_op};
ghost use Rattle.judge.specs.Facts.{pushed, negated, takes, gives, combined, travelled, no_args, appended, constructed};
ghost use Rattle.judging.specs.CodeOps.{sort_by};

use crate::fault;
use judge::{Facts, Judged};
use program::form;

// One push of this type.
pub fn pushed(t: u8) -> Facts
    ensures { result ≡ pushed t }
{
    Facts {
        size: 1,
        peak: 1,
        fault: 0,
        typ: t,
    }
}

pub fn negated(f: Facts) -> Facts
    requires { f.size + 1 < 2 ^ 64 }
    ensures { result ≡ negated f }
{
    Facts {
        size: f.size + 1,
        peak: f.peak,
        fault: fault::demand(f.fault, f.typ == types::BOOL),
        typ: types::BOOL,
    }
}

// The first operator that compares by order; before it stand = and its opposite.
const ORDER: u8 = form::EQ + 2;

// Whether the operator of a byte takes values of types t and u.
fn takes(b: u8, t: u8, u: u8) -> bool
    ensures { result ≡ (eqb t u && takes (sort_by b) t) }
{
    if t != u {
        return false;
    }
    if b < ORDER {
        return true;
    }
    if b < form::AND {
        return t < types::BOOL;
    }
    t == types::BOOL
}

// The type of what the operator of a byte gives.
fn gives(b: u8, t: u8) -> u8
    ensures { result ≡ gives (sort_by b) t }
{
    if form::MUL <= b && b < form::AND {
        return t;
    }
    types::BOOL
}

// The operator of a byte, between two expressions: the second stands one above the first. Of a byte that is no operator's the facts are free:
// one under 32 is taken as =, one over 44 as or. No reader hands one over.
pub fn combined(b: u8, f: Facts, g: Facts) -> Facts
    requires { (f.size + g.size + 1 < 2 ^ 64) × (g.peak + 1 < 2 ^ 64) }
    ensures { (o : Op) → form b ≡ form_op o → result ≡ combined o f g }
{
    let second = g.peak + 1;
    let right = takes(b, f.typ, g.typ);
    Facts {
        size: f.size + g.size + 1,
        peak: f.peak.max(second),
        fault: fault::demand(fault::worst(f.fault, g.fault), right),
        typ: gives(b, f.typ),
    }
}

// A path of n variables.
pub fn travelled(n: u8, j: Judged) -> Facts
    ensures { result ≡ travelled n j }
{
    Facts {
        size: usize::from(n) + 1,
        peak: 1,
        fault: j.fault,
        typ: j.typ,
    }
}

pub fn no_args() -> Facts
    ensures { result ≡ no_args }
{
    Facts {
        size: 0,
        peak: 0,
        fault: 0,
        typ: 0,
    }
}

// An argument for a parameter of type t, behind x others.
pub fn appended(x: u8, t: u8, a: Facts, f: Facts) -> Facts
    requires { (a.size + f.size < 2 ^ 64) × (x + f.peak < 2 ^ 64) }
    ensures { result ≡ appended x t a f }
{
    let own = fault::demand(f.fault, f.typ == t);
    Facts {
        size: a.size + f.size,
        peak: a.peak.max(usize::from(x) + f.peak),
        fault: fault::worst(a.fault, own),
        typ: 0,
    }
}

// A construct of the struct k, over its arguments.
pub fn constructed(k: u8, f: Facts) -> Facts
    requires { (f.size + 1 < 2 ^ 64) × (k < 240) }
    ensures { result ≡ constructed k f }
{
    Facts {
        size: f.size + 1,
        peak: 1usize.max(f.peak),
        fault: f.fault,
        typ: types::STRUCT + k,
    }
}
