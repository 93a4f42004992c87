// The commands that work on the actor's own stack (000, rules ComPush, ComPushThis, ComNot, ComIfT and ComIfF), and what every command is
// handed and answers. The contracts are equations with `memory/specs/Act.antt`.
#![tactic(auto)]

ghost use Rattle.std.specs.Prelude.{◌≡◌, [], ◌+◌, ◌*◌, ◌<◌, length, get_or, set, Ok};
ghost use Rattle.types.specs.Limits.{max_instances, max_depth};
ghost use Rattle.layout.specs.Layout.{head_size, head_end, row_size, head, struct_of, stacked, going};
ghost use Rattle.memory.specs.Act.{do_push, do_this, do_not, do_if};
ghost use Rattle.memory.specs.Fit.{PushFit, ThisFit, TruthFit};
ghost use Rattle.execute_stack.specs.Answers.{Acting, topmost, Does};

// The instance that takes a command: its label, the height of its stack and the place of the command.
#[derive(Clone, Copy)]
pub struct Actor {
    pub label: usize,
    pub height: usize,
    pub next: usize,
}

// What a command did beside its writes to memory: nothing; it wrote a variable, which multiplies each stability entry by 1 where this is
// true and else by 0; or it made an instance, which makes all entries false. A command that may be refused answers a `Result`, and has then
// written nothing.
#[derive(Clone, Copy, PartialEq, Eq, Debug)]
pub enum Effect {
    Kept,
    Wrote(bool),
    Made,
}

// Instance l goes on at the command n, with the cell c on top of h values. Heads and cells are two slices: a struct that holds both needs two
// clauses more in each contract, that it holds the same slices as before.
pub fn put(heads: &mut [u16], cells: &mut [u64], l: usize, h: usize, c: u64, n: usize)
    requires l_lt_max_instances { (l < max_instances) × (length heads.old ≡ head_size * max_instances) }
    requires h_lt_max_depth { (h < max_depth) × (length cells.old ≡ row_size * max_instances) × (n < head_end) }
    ensures heads_after { heads.new ≡ going heads.old l (h + 1) n }
    ensures cells_after { cells.new ≡ set cells.old (stacked l h) c }
{
    cells[layout::ROW_SIZE * l + types::VARIABLES + h] = c;
    layout::go(heads, l, h + 1, n);
}

// push T V: the command's word is the cell.
pub fn push(heads: &mut [u16], cells: &mut [u64], a: Actor, w: u64) -> Effect
    requires acting { Acting heads.old cells.old a }
    requires push_fit { PushFit a.height }
    ensures { Does (λ z. do_push [] a.label z w) (Ok result) heads.old cells.old heads.new cells.new }
{
    put(heads, cells, a.label, a.height, w, a.next + 1);
    Effect::Kept
}

// push this: the actor's label, of its struct.
pub fn push_this(heads: &mut [u16], cells: &mut [u64], a: Actor) -> Effect
    requires acting { Acting heads.old cells.old a }
    requires this_fit { ThisFit a.height (get_or heads.old (head a.label struct_of) 0) }
    ensures { Does (λ z. do_this [] a.label z) (Ok result) heads.old cells.old heads.new cells.new }
{
    let l = a.label;
    let k = layout::head(heads, l, layout::STRUCT);
    let c = layout::cell(types::STRUCT + k as u8, l as u64);
    put(heads, cells, l, a.height, c, a.next + 1);
    Effect::Kept
}

// not: a truth's word is 0 or 1.
pub fn negate(heads: &mut [u16], cells: &mut [u64], a: Actor) -> Effect
    requires acting { Acting heads.old cells.old a }
    requires truth_fit { TruthFit a.height (topmost cells.old a) }
    ensures { Does (λ z. do_not [] a.label z) (Ok result) heads.old cells.old heads.new cells.new }
{
    let l = a.label;
    let low = a.height - 1;
    let t = cells[layout::ROW_SIZE * l + types::VARIABLES + low];
    let c = layout::cell(types::BOOL, 1 - layout::operand(t));
    put(heads, cells, l, low, c, a.next + 1);
    Effect::Kept
}

// if n: a false condition leaves the n commands of the body out.
pub fn branch(heads: &mut [u16], cells: &[u64], a: Actor, n: usize) -> Effect
    requires acting { Acting heads.old cells.now a }
    requires truth_fit { TruthFit a.height (topmost cells.now a) }
    requires n_bound { a.next + 1 + n < head_end }
    ensures { Does (λ z. do_if [] a.label z n) (Ok result) heads.old cells.now heads.new cells.now }
{
    let l = a.label;
    let low = a.height - 1;
    let t = cells[layout::ROW_SIZE * l + types::VARIABLES + low];
    if layout::operand(t) == 0 {
        layout::go(heads, l, low, a.next + 1 + n);
        return Effect::Kept;
    }
    layout::go(heads, l, low, a.next + 1);
    Effect::Kept
}
