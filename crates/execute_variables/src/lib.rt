// The commands that read and write a variable (000, rules ComRd, ComWr and ComWrNSkip).
#![tactic(auto)]

ghost use Rattle.std.specs.Prelude.{◌≡◌, [], ◌<◌, length, get_or, set, Ok};
ghost use Rattle.types.specs.Limits.{max_instances};
ghost use Rattle.layout.specs.Layout.{head, struct_of, operand};
ghost use Rattle.memory.specs.Act.{do_rd, do_wr};
ghost use Rattle.memory.specs.Fit.{RdFit, WrFit};
ghost use Rattle.execute_stack.specs.Answers.{Acting, topmost, Does};
ghost use Rattle.execute_variables.specs.Change.{change};

use execute_stack::{Actor, Effect, put};

// rd x: the variable of the instance whose label is on top.
pub fn read(heads: &mut [u16], cells: &mut [u64], a: Actor, x: usize) -> Effect
    requires acting { Acting heads.old cells.old a }
    requires rd_fit { RdFit a.height (topmost cells.old a) max_instances x }
    ensures { Does (λ z. do_rd [] a.label z x) (Ok result) heads.old cells.old heads.new cells.new }
{
    let l = a.label;
    let low = a.height - 1;
    let t = cells[layout::ROW_SIZE * l + types::VARIABLES + low];
    let r = layout::operand(t) as usize;
    let c = cells[layout::ROW_SIZE * r + x];
    put(heads, cells, l, low, c, a.next + 1);
    Effect::Kept
}

// A parameter is written: the factor of the stability entries is whether its value is the one that stood there.
fn replace(cells: &mut [u64], at: usize, c: u64) -> Effect
    requires { at < length cells.old }
    ensures value { result ≡ change (get_or cells.old at 0) c }
    ensures cells_after { cells.new ≡ set cells.old at c }
{
    let old = layout::operand(cells[at]);
    cells[at] = c;
    Effect::Wrote(old == layout::operand(c))
}

// wr x: the value beneath the label on top. A parameter of a null instance stays as it is; a local's write multiplies by 1.
pub fn write(counts: &[u8], heads: &mut [u16], cells: &mut [u64], a: Actor, x: usize) -> Effect
    requires acting { Acting heads.old cells.old a }
    requires wr_fit { WrFit a.height (topmost cells.old a) max_instances x (get_or heads.old (head (operand (topmost cells.old a)) struct_of) 0)
        (length counts.now) }
    ensures { Does (λ z. do_wr counts.now a.label z x) (Ok result) heads.old cells.old heads.new
        cells.new }
{
    let l = a.label;
    let h = a.height;
    let t = cells[layout::ROW_SIZE * l + types::VARIABLES + (h - 1)];
    let c = cells[layout::ROW_SIZE * l + types::VARIABLES + (h - 2)];
    let r = layout::operand(t) as usize;
    let k = layout::head(heads, r, layout::STRUCT);
    layout::go(heads, l, h - 2, a.next + 1);
    if x < counts[k] as usize {
        if r < counts.len() {
            return Effect::Kept;
        }
        return replace(cells, layout::ROW_SIZE * r + x, c);
    }
    cells[layout::ROW_SIZE * r + x] = c;
    Effect::Wrote(true)
}
