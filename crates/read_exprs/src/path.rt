// Paths, read and followed variable by variable.
ghost use Rattle.std.specs.Prelude.{◌≡◌, [], ◌∷◌, ◌+◌, ◌<◌, ◌≤◌, length};
ghost use Rattle.types.specs.Refusals.{numbered};
ghost use Rattle.program.specs.Reader.{many, ranged, read_path};
ghost use Rattle.judge.specs.Facts.{lead, path_of};
ghost use Rattle.read_exprs.specs.Told.{path_told, row_told, read_vars, PathSpan};

use crate::read;
use crate::read::{Names, PathRead};
use judge::Judged;

// From a value, n parameters on, c variables in.
fn follow(s: &[u8], names: &Names, j: Judged, n: u8, c: u8, at: usize) -> PathRead
    requires { (at ≤ length s.now) × (n + c < 256) }
    ensures value { numbered result ≡ row_told (lead names.now.ar.now names.now.types.now j) c (many [] ◌∷◌ (ranged s.now 0 8) n at) }
    ensures path_span { PathSpan s.now c (n + c) at result }
{
    let mut value = j;
    let mut next = at;
    for i in 0..n {
        let (x, behind) = read::ranged(s, 0, types::FIRST_LOCAL, next)?;
        value = judging::path::lead_by(names.ar, names.types, value, x);
        next = behind;
    }
    Ok((next, n + c, value))
}

// The first variable of a path and n - 1 parameters behind it.
fn first(s: &[u8], names: &Names, live: u64, n: u8, at: usize) -> PathRead
    requires { (1 ≤ n) × (n < 5) }
    ensures value { numbered result ≡ path_told (path_of names.now.ar.now names.now.types.now names.now.own live) (read_vars s.now n at) }
    ensures path_span { PathSpan s.now 0 4 at result }
{
    let (b, m) = read::ranged(s, 0, types::VARIABLES, at)?;
    let j = judging::path::start(names.ar, names.types, names.own, live, b);
    follow(s, names, j, n - 1, 1, m)
}

pub fn path(s: &[u8], names: &Names, live: u64, at: usize) -> PathRead
    ensures value { numbered result ≡ path_told (path_of names.now.ar.now names.now.types.now names.now.own live) (read_path s.now at) }
    ensures path_span { PathSpan s.now 0 4 (at + 1) result }
{
    let (n, m) = read::ranged(s, 1, types::MAX_PATH + 1, at)?;
    first(s, names, live, n, m)
}
