// One move of the schedule, where no instance holds commands (000's rules for the schedule; 01, 'Table and turns').
ghost use Rattle.std.specs.Prelude.{◌≡◌, ◌<◌, ◌^◌};
ghost use Rattle.types.specs.Limits.{fix_levels};
ghost use Rattle.memory.specs.Move.{do_fix, do_round};
ghost use Rattle.scheduler.specs.Makes.{Makes, Moves};
ghost use Rattle.scheduler.specs.Ready.{Movable};

use crate::begin::begin_all;
use crate::count::holding;
use layout::{Numbers, codes};

// A Fix begins, with an entry more.
fn fix(numbers: Numbers) -> Numbers
    requires { (numbers.place < 2 ^ 63) × (numbers.stable < 2 ^ numbers.fixes) × (numbers.fixes < fix_levels) }
    ensures { Makes do_fix numbers result }
{
    Numbers {
        place: numbers.place + 1,
        fixes: numbers.fixes + 1,
        stable: 2 * numbers.stable + 1,
        ..numbers
    }
}

// A Fix ends where its entry, the lowest bit, is true; else it goes round to its items at t.
fn round(t: usize, numbers: Numbers) -> Numbers
    requires { (numbers.place < 2 ^ 63) × (numbers.stable < 2 ^ numbers.fixes) }
    ensures { Makes (do_round t) numbers result }
{
    if numbers.stable % 2 == 1 {
        Numbers {
            place: numbers.place + 1,
            fixes: numbers.fixes - 1,
            stable: numbers.stable / 2,
            ..numbers
        }
    } else {
        Numbers {
            place: t,
            stable: numbers.stable + 1,
            ..numbers
        }
    }
}

// The item at the place of a machine with these numbers.
pub fn advance(numbers: Numbers, items: &[usize], spans: &[u16], heads: &mut [u16]) -> Numbers
    requires { Movable items.now spans.now heads.old numbers }
    ensures { Moves items.now spans.now heads.old numbers result heads.new }
{
    let place = numbers.place;
    let c = items[place];
    if c < codes::FIX {
        begin_all(spans, heads, c, numbers.count);
        return Numbers {
            place: place + 1,
            holding: holding(heads, numbers.count),
            ..numbers
        };
    }
    if c == codes::FIX {
        return fix(numbers);
    }
    round(c - codes::ROUND, numbers)
}
