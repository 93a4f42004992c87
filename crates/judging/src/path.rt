// Where a path leads, variable by variable (01, 'Names, types, commands').
ghost use Rattle.std.specs.Prelude.{◌≡◌, List, ℕ, ◌+◌, ◌*◌, ◌<◌, get_or};
ghost use Rattle.program.specs.Tree.{Var.loc};
ghost use Rattle.program.specs.Reader.{var_of};
ghost use Rattle.judge.specs.Facts.{param, lead_by, start_of};

use crate::digits;
use judge::Judged;
use types::refusal::Refusal;

// The byte of the first local.
pub const FIRST_LOCAL: u8 = types::FIRST_LOCAL as u8;

// What stands at a place, 0 past the end.
pub fn look(table: &[u8], i: usize) -> u8
    ensures { result ≡ get_or table.now i 0 }
{
    table.get(i).copied().unwrap_or(0)
}

// The type of parameter x of the struct k.
pub fn type_at(types: &[u8], k: u8, x: u8) -> u8
    ensures { result ≡ get_or types.now (8 * k + x) 0 }
{
    look(types, types::MAX_PARAMS * k as usize + x as usize)
}

// A parameter of the struct k.
pub fn param(ar: &[u8], types: &[u8], fault: u8, k: u8, x: u8) -> Judged
    ensures { result ≡ param ar.now types.now fault k x }
{
    if x < look(ar, k as usize) {
        return Judged {
            fault: 0,
            typ: type_at(types, k, x),
        };
    }
    Judged { fault, typ: 0 }
}

// From a value, its parameter x.
pub fn lead_by(ar: &[u8], types: &[u8], j: Judged, x: u8) -> Judged
    ensures { result ≡ lead_by ar.now types.now j x }
{
    if j.fault != 0 {
        return j;
    }
    if j.typ < types::STRUCT {
        return Judged {
            fault: u8::from(Refusal::WrongTypes),
            typ: 0,
        };
    }
    let k = j.typ - types::STRUCT;
    param(ar, types, u8::from(Refusal::WrongTypes), k, x)
}

// The local x: its digit is 1 more than its type while it lives.
pub fn local(live: u64, x: u8) -> Judged
    requires { x < 8 }
    ensures { (ar types : List ℕ) (own : ℕ) → result ≡ start_of ar types own live (loc x) }
{
    let d = digits::digit(live, x);
    if d == 0 {
        return Judged {
            fault: u8::from(Refusal::WrongNames),
            typ: 0,
        };
    }
    Judged {
        fault: 0,
        typ: d - 1,
    }
}

// The first variable of a path, by its byte: a parameter of the own struct, or a local.
pub fn start(ar: &[u8], types: &[u8], own: u8, live: u64, b: u8) -> Judged
    requires { b < 16 }
    ensures { result ≡ start_of ar.now types.now own live (var_of b) }
{
    if b < FIRST_LOCAL {
        return param(ar, types, u8::from(Refusal::WrongNames), own, b);
    }
    local(live, b - FIRST_LOCAL)
}
