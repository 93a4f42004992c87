// The moves of the schedule, without a turn, until some instance holds commands (01, 'Table and turns').
ghost use Rattle.std.specs.Prelude.{List, ℕ};
ghost use Rattle.layout.specs.State.{state_of};
ghost use Rattle.interpreter.specs.Running.{Standing, Settling};

use engine::Machine;
use layout::codes;

// Where the moves of a machine lead: where no instance holds commands then, the schedule is at its end. Memory is free up to the machine that
// it stands for: nothing is said of cells above a stack, nor where an instance without commands has its next one. The loop is over the machine's
// state, and counts nothing.
pub fn settle(machine: Machine, items: &[usize], spans: &[u16], heads: &mut [u16]) -> Machine
    requires { Standing items.now spans.now heads.old machine.numbers }
    ensures { (cells : List ℕ) → Settling items.now spans.now (state_of machine.numbers heads.old cells)
        (state_of result.numbers heads.new cells) }
{
    let mut next = machine;
    while !layout::due(next.numbers) {
        let place = next.numbers.place;
        if items[place] == codes::END {
            return next;
        }
        next = next.advance(items, spans, heads);
    }
    next
}
