// The machine of a run (01, 'Table and turns'): a few numbers by value, over the memory that the run is lent.
#![tactic(auto)]

ghost use Rattle.std.specs.Prelude.{◌≡◌, List, ℕ, ◌^◌, ◌<◌, length};
ghost use Rattle.layout.specs.Layout.{head, end_of, holds};
ghost use Rattle.layout.specs.State.{state_of};
ghost use Rattle.memory.specs.Act.{turned, act};
ghost use Rattle.memory.specs.Choose.{fewer};
ghost use Rattle.memory.specs.Fit.{Fit};
ghost use Rattle.memory.specs.Move.{move};
ghost use Rattle.execute_stack.specs.Answers.{answering};
ghost use Rattle.scheduler.specs.Ready.{Movable};

use execute::perform;
use execute_stack::Effect;
use layout::Numbers;
use scheduler::schedule::advance;
use types::refusal::Refusal;

#[derive(Clone, Copy)]
pub struct Machine {
    pub numbers: Numbers,
}

// What the answer of a command makes of the numbers.
fn after(numbers: Numbers, acted: Result<Effect, Refusal>) -> Numbers
    requires { numbers.count < 2 ^ 63 }
    ensures { (h c : List ℕ) → state_of result h c ≡ answering acted (state_of numbers h c) }
{
    // One number in each arm: a struct update there copies the others, which costs a quarter of a turn.
    let mut next = numbers;
    match acted {
        Ok(Effect::Kept) => {}
        Ok(Effect::Wrote(same)) => {
            let product = numbers.stable * usize::from(same);
            next.stable = product;
        }
        Ok(Effect::Made) => {
            next.stable = 0;
            next.count = numbers.count + 1;
        }
        Err(refusal) => {
            next.number = u8::from(refusal);
        }
    }
    next
}

// How many hold commands behind a command of instance l, where n did before it: the others hold what they held.
fn left_holding(heads: &[u16], l: usize, n: usize) -> usize
    requires { (head l end_of < length heads.now) × (0 < n) }
    ensures { result ≡ fewer (holds heads.now l) n }
{
    if layout::holds(heads, l) { n } else { n - 1 }
}

// Turns are counted on from the label after l, where its command was not refused (02, 'Turns that go round').
fn turned(numbers: Numbers, l: usize) -> Numbers
    requires { l < 2 ^ 63 }
    ensures { (h c : List ℕ) → state_of result h c ≡ turned l (state_of numbers h c) }
{
    if numbers.number != 0 {
        return numbers;
    }
    let mut next = numbers;
    next.from = l + 1;
    next
}

impl Machine {
    // Instance l takes its next command, where some instance holds commands.
    pub fn command(
        mut self,
        list: &[u64],
        counts: &[u8],
        heads: &mut [u16],
        cells: &mut [u64],
        l: usize,
    ) -> Machine
        requires fit { Fit list.now counts.now l (state_of self.numbers heads.old cells.old) }
        requires holding_nonzero { 0 < self.numbers.holding }
        ensures { state_of result.numbers heads.new cells.new ≡ act list.now counts.now l
            (state_of self.numbers heads.old cells.old) }
    {
        let at = layout::head(heads, l, layout::NEXT);
        let numbers = self.numbers;
        let acted = perform(counts, heads, cells, l, numbers.count, list[at]);
        let mut next = after(numbers, acted);
        next.holding = left_holding(heads, l, numbers.holding);
        self.numbers = turned(next, l);
        self
    }

    // One move of the schedule, where no instance holds commands.
    pub fn advance(mut self, items: &[usize], spans: &[u16], heads: &mut [u16]) -> Machine
        requires { Movable items.now spans.now heads.old self.numbers }
        ensures { (cells : List ℕ) → state_of result.numbers heads.new cells ≡ move items.now spans.now
            (state_of self.numbers heads.old cells) }
    {
        let numbers = self.numbers;
        self.numbers = advance(numbers, items, spans, heads);
        self
    }
}
