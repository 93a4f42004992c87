// The operators on the stack (000, rule ComOp; 01, number 35).
#![tactic(auto)]

ghost use Rattle.std.specs.Prelude.{◌≡◌, []};
ghost use Rattle.memory.specs.Act.{result_byte, do_op};
ghost use Rattle.memory.specs.Fit.{OpFit};
ghost use Rattle.execute_stack.specs.Answers.{Acting, topmost, second, Does};

use arithmetic::apply_word;
use execute_stack::{Actor, Effect, put};
use operators::OperatorError;
use types::refusal::Refusal;

// The bytes of × and −, between which the arithmetic operators stand.
const MUL: u8 = 38;

const SUB: u8 = 42;

// The type byte of an operator's result: arithmetic keeps that of its operands. By the byte, as the definition has it, so that it is not taken for an
// `Operator` a second time.
fn result_byte(o: u8, t: u8) -> u8
    ensures { result ≡ result_byte o t }
{
    match o {
        MUL..=SUB => t,
        _ => types::BOOL,
    }
}

// op o: the value beneath is the left operand.
pub fn operate(heads: &mut [u16], cells: &mut [u64], a: Actor, o: u8) -> Result<Effect, Refusal>
    requires acting { Acting heads.old cells.old a }
    requires op_fit { OpFit a.height (second cells.old a) (topmost cells.old a) o }
    ensures { Does (λ z. do_op [] a.label z o) result heads.old cells.old heads.new cells.new }
{
    let l = a.label;
    let h = a.height;
    let x = cells[layout::ROW_SIZE * l + types::VARIABLES + (h - 2)];
    let y = cells[layout::ROW_SIZE * l + types::VARIABLES + (h - 1)];
    let t = layout::type_byte(x);
    let answer = apply_word(o, t, layout::operand(x) as u32, layout::operand(y) as u32);
    match answer {
        Ok(v) => {
            let c = layout::cell(result_byte(o, t), v as u64);
            put(heads, cells, l, h - 2, c, a.next + 1);
            Ok(Effect::Kept)
        }
        Err(error) => match error {
            OperatorError::Outside => Err(Refusal::Exceeded),
            OperatorError::Unfit => Ok(Effect::Kept),
        },
    }
}
