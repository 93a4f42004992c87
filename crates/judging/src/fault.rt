// Faults as numbers: 0, 7 or 8 (01, numbers 7 and 8).
ghost use Rattle.std.specs.Prelude.{◌≡◌};
ghost use Rattle.judge.specs.Facts.{worst, demand, named};

use types::refusal::Refusal;

// The lower number of two, where there is one.
pub fn worst(a: u8, b: u8) -> u8
    ensures { result ≡ worst a b }
{
    if a == 0 {
        return b;
    }
    if b == 0 {
        return a;
    }
    a.min(b)
}

// 8 where a test of types fails and nothing was wrong before.
pub fn demand(fault: u8, right: bool) -> u8
    ensures { result ≡ demand fault right }
{
    if fault != 0 || right {
        return fault;
    }
    u8::from(Refusal::WrongTypes)
}

// 7 where a test of names fails.
pub fn named(right: bool) -> u8
    ensures { result ≡ named right }
{
    if right {
        return 0;
    }
    u8::from(Refusal::WrongNames)
}
