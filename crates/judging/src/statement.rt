// What is computed of a statement from what was computed of its parts (01, numbers 6 to 8).
ghost use Rattle.std.specs.Prelude.{◌≡◌, ◌+◌, ◌<◌, ◌^◌};
ghost use Rattle.judge.specs.Facts.{nothing, branched, declared, updated, followed};

use crate::{digits, fault};
use judge::{Done, Facts, Judged, Scope};

// No statement.
pub fn nothing(c: Scope) -> Done
    ensures { result ≡ nothing c }
{
    Done {
        size: 0,
        height: 0,
        growth: 0,
        fault: 0,
        after: c,
    }
}

// An if: what its body declares dies with it, and stays declared.
pub fn branched(c: Scope, f: Facts, b: Done) -> Done
    requires { f.size + b.size + 1 < 2 ^ 64 }
    ensures { result ≡ branched c f b }
{
    let first = fault::demand(f.fault, f.typ == types::BOOL);
    let inner = b.after;
    let after = Scope {
        live: c.live,
        seen: inner.seen,
    };
    Done {
        size: f.size + b.size + 1,
        height: f.peak.max(b.height),
        growth: b.growth,
        fault: fault::worst(first, b.fault),
        after,
    }
}

// The local x declared with type t.
pub fn declared(c: Scope, t: u8, x: u8, f: Facts) -> Done
    requires { (f.size + 2 < 2 ^ 64) × (x < 8) × (t < 255) }
    ensures { result ≡ declared c t x f }
{
    let first = fault::demand(f.fault, f.typ == t);
    let new = digits::digit(c.seen, x) == 0;
    let after = Scope {
        live: digits::mark(c.live, x, t + 1),
        seen: digits::mark(c.seen, x, 1),
    };
    Done {
        size: f.size + 2,
        height: f.peak.max(2),
        growth: 0,
        fault: fault::worst(first, fault::named(new)),
        after,
    }
}

// An update of a path of n variables.
pub fn updated(c: Scope, n: u8, j: Judged, f: Facts) -> Done
    requires { f.size + n + 1 < 2 ^ 64 }
    ensures { result ≡ updated c n j f }
{
    let first = fault::worst(j.fault, f.fault);
    Done {
        size: f.size + usize::from(n) + 1,
        height: f.peak.max(2),
        growth: 0,
        fault: fault::demand(first, j.typ == f.typ),
        after: c,
    }
}

// One statement, then others.
pub fn followed(a: Done, b: Done) -> Done
    requires { (a.size + b.size < 2 ^ 64) × (a.growth + b.height < 2 ^ 64) × (a.growth + b.growth < 2 ^ 64) }
    ensures { result ≡ followed a b }
{
    let after = b.after;
    Done {
        size: a.size + b.size,
        height: a.height.max(a.growth + b.height),
        growth: a.growth + b.growth,
        fault: fault::worst(a.fault, b.fault),
        after,
    }
}
