// The commands of a step (01, 'Names, types, commands').
ghost use Rattle.program.specs.Reader.{read_step};
ghost use Rattle.commands.specs.ProgramWords.{step_words};
ghost use Rattle.emit.specs.Written.{Ready, Wrote};

use crate::Put;
use crate::stmts::body;

// The commands of the step at a place, from k on.
pub fn step(s: &[u8], ar: &[u8], at: usize, out: &mut [u64], k: usize) -> Put
    requires { Ready step_words (read_step ar.now s.now at) out.old k }
    ensures { Wrote step_words (read_step ar.now s.now at) out.old k result out.new }
{
    body(s, ar, at + 1, types::IF_LEVELS, out, k)
}
