// The schedule of an accepted program laid flat, so that what is left of it is a place (01, 'Table and turns').
ghost use Rattle.std.specs.Prelude.{◌≡◌, ◌+◌, ◌<◌, length, set};
ghost use Rattle.emit.specs.Written.{Ready, Wrote};
ghost use Rattle.compile.specs.Laid.{LaidProgram};
ghost use Rattle.compile.specs.Codes.{item_codes, items_codes, schedule_codes, item_at, items_at, schedule_at};

use emit::Put;
use program::form;

// The codes of a schedule are at most two for each item, and the end.
pub const CODES: usize = 2 * types::SCHEDULE_ITEMS + 1;

// A code behind what was written.
fn add(codes: &mut [usize], p: Put, code: usize) -> Put
    requires { p.at < length codes.old }
    ensures { (result.next ≡ p.next) × (result.at ≡ p.at + 1) × (codes.new ≡ set codes.old p.at code) }
{
    codes[p.at] = code;
    Put { at: p.at + 1, ..p }
}

// The codes of the item at a place, from k on: a step by its name, on one struct by that struct's names; a Fix around its items.
#[cycle(item_items)]
fn item(s: &[u8], at: usize, depth: usize, codes: &mut [usize], k: usize) -> Put
    requires { Ready (item_codes k) (item_at s.now depth at) codes.old k }
    ensures { Wrote (item_codes k) (item_at s.now depth at) codes.old k result codes.new }
{
    match s[at] {
        form::CALL => {
            let n = usize::from(s[at + 1]);
            let p = Put {
                next: at + 2,
                at: k,
            };
            add(codes, p, n)
        }
        form::CALL_IN => {
            let j = usize::from(s[at + 1]);
            let n = usize::from(s[at + 2]);
            let p = Put {
                next: at + 3,
                at: k,
            };
            add(codes, p, types::STEP_NAMES * (j + 1) + n)
        }
        _ => {
            codes[k] = layout::codes::FIX;
            let p = items(s, at + 1, depth - 1, codes, k + 1);
            add(codes, p, layout::codes::ROUND + k + 1)
        }
    }
}

// The items of the schedule or of a Fix: a count and that many items.
#[cycle(item_items)]
fn items(s: &[u8], at: usize, depth: usize, codes: &mut [usize], k: usize) -> Put
    requires { Ready (items_codes k) (items_at s.now depth at) codes.old k }
    ensures { Wrote (items_codes k) (items_at s.now depth at) codes.old k result codes.new }
{
    let mut p = Put {
        next: at + 1,
        at: k,
    };
    for _done in 0..s[at] {
        p = item(s, p.next, depth, codes, p.at);
    }
    p
}

// The whole schedule, which begins at a place, and its end behind it.
pub fn schedule(s: &[u8], at: usize, codes: &mut [usize]) -> Put
    requires { Ready schedule_codes (schedule_at s.now at) codes.old 0 }
    ensures wrote { Wrote schedule_codes (schedule_at s.now at) codes.old 0 result codes.new }
    ensures laid_program { LaidProgram s.now at codes.old codes.new }
{
    let p = items(s, at, types::FIX_LEVELS, codes, 0);
    add(codes, p, layout::codes::END)
}
