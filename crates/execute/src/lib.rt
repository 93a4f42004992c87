// A command on lent memory, by its kind (01, 'Table and turns'; 000's rules for commands). The height of the actor's stack and the place of
// its command are read once and handed on. The contract is an equation with `memory/specs/Act.antt`.
#![tactic(auto)]

ghost use Rattle.std.specs.Prelude.{◌%◌};
ghost use Rattle.layout.specs.Layout.{operand};
ghost use Rattle.memory.specs.Act.{perform};
ghost use Rattle.execute_stack.specs.Answers.{DoesWith};
ghost use Rattle.execute.specs.Ready.{Ready};

use commands::kind;
use execute_construct::construct;
use execute_operator::operate;
use execute_stack::{Actor, Effect, branch, negate, push, push_this};
use execute_variables::{read, write};
use types::refusal::Refusal;

// Instance l, one of count, takes the command w: its kind is the lowest byte, its operand the upper half. The kinds are constants, since
// `Kind::try_from` would ask the same questions once more.
pub fn perform(
    counts: &[u8],
    heads: &mut [u16],
    cells: &mut [u64],
    l: usize,
    count: usize,
    w: u64,
) -> Result<Effect, Refusal>
    requires { Ready counts.now heads.old cells.old l count w }
    ensures { DoesWith count (λ z. perform counts.now l z (w % 256) w (operand w)) result heads.old cells.old
        heads.new cells.new }
{
    let a = Actor {
        label: l,
        height: layout::head(heads, l, layout::HEIGHT),
        next: layout::head(heads, l, layout::NEXT),
    };
    let v = layout::operand(w);
    match w % 256 {
        kind::PUSH => Ok(push(heads, cells, a, w)),
        kind::THIS => Ok(push_this(heads, cells, a)),
        kind::RD => Ok(read(heads, cells, a, v as usize)),
        kind::WR => Ok(write(counts, heads, cells, a, v as usize)),
        kind::CONS => construct(counts, heads, cells, a, count, v as usize),
        kind::IF => Ok(branch(heads, cells, a, v as usize)),
        kind::NOT => Ok(negate(heads, cells, a)),
        _ => operate(heads, cells, a, v as u8),
    }
}
