// The command that makes an instance (000, rule ComCons; 01, number 34).
#![tactic(auto)]

ghost use Rattle.std.specs.Prelude.{◌≡◌, ◌+◌, ◌<◌, ◌≤◌, length, take, drop};
ghost use Rattle.std.proofs.lemmas.List.Edits.{sets};
ghost use Rattle.memory.specs.Act.{do_cons};
ghost use Rattle.memory.specs.Fit.{ConsFit};
ghost use Rattle.execute_stack.specs.Answers.{Acting, DoesWith};

use execute_stack::{Actor, Effect, put};
use types::refusal::Refusal;

// cons k: the values on top become the parameters of the new instance, whose label takes their place.
pub fn construct(
    counts: &[u8],
    heads: &mut [u16],
    cells: &mut [u64],
    a: Actor,
    count: usize,
    k: usize,
) -> Result<Effect, Refusal>
    requires acting { Acting heads.old cells.old a }
    requires cons_fit { ConsFit counts.now a.height k }
    requires label_lt_count { a.label < count }
    ensures { DoesWith count (λ z. do_cons counts.now a.label z k) result heads.old cells.old heads.new
        cells.new }
{
    if types::MAX_INSTANCES <= count {
        return Err(Refusal::Full);
    }
    let l = a.label;
    let p = counts[k] as usize;
    let low = a.height - p;
    let values = layout::ROW_SIZE * l + types::VARIABLES + low;
    cells.copy_within(values..values + p, layout::ROW_SIZE * count);
    layout::seat(heads, count, k);
    let c = layout::cell(types::STRUCT + k as u8, count as u64);
    put(heads, cells, l, low, c, a.next + 1);
    Ok(Effect::Made)
}
