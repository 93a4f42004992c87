// Digits to the base 256, one for each local of a step.
ghost use Rattle.std.specs.Prelude.{◌≡◌, ◌<◌, ◌^◌};
ghost use Rattle.judge.specs.Facts.{digit, mark};

fn power(x: u8) -> u64
    requires { x < 8 }
    ensures { (result ≡ 256 ^ x) × (0 < result) }
{
    match x {
        0 => 1,
        1 => 256,
        2 => 65536,
        3 => 16777216,
        4 => 4294967296,
        5 => 1099511627776,
        6 => 281474976710656,
        _ => 72057594037927936,
    }
}

pub fn digit(w: u64, x: u8) -> u8
    requires { x < 8 }
    ensures { result ≡ digit w x }
{
    (w / power(x) % 256) as u8
}

// Digit x set to v, where it was 0.
pub fn mark(w: u64, x: u8, v: u8) -> u64
    requires { x < 8 }
    ensures { result ≡ mark w x v }
{
    if digit(w, x) == 0 {
        return w + v as u64 * power(x);
    }
    w
}
