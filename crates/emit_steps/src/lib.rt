// The commands of a program's steps in the lent list, in one walk (01, 'Names, types, commands').
#![tactic(auto)]

ghost use Rattle.std.specs.Prelude.{length};
ghost use Rattle.program.specs.Reader.{read_steps};
ghost use Rattle.commands.specs.ProgramWords.{steps_words, structs_words};
ghost use Rattle.emit.specs.Written.{Ready, Wrote, structs_at};
ghost use Rattle.emit_steps.specs.Emitted.{EmittedProgram};

use emit::Put;

// The steps of a struct: a count, and that many steps.
fn of_struct(s: &[u8], ar: &[u8], p: Put, list: &mut [u64]) -> Put
    requires { Ready steps_words (read_steps ar.now s.now p.next) list.old p.at }
    ensures { Wrote steps_words (read_steps ar.now s.now p.next) list.old p.at result list.new }
{
    let at = p.next;
    let n = s[at];
    let mut z = Put {
        next: at + 1,
        at: p.at,
    };
    for x in 0..n {
        z = emit::steps::step(s, ar, z.next, list, z.at);
    }
    z
}

// All steps of a program, from the place behind its parameter lists.
pub fn program(s: &[u8], ar: &[u8], at: usize, list: &mut [u64])
    requires { Ready structs_words (structs_at ar.now s.now (length ar.now) at) list.old 0 }
    ensures { EmittedProgram ar.now s.now at list.old list.new }
{
    let n = ar.len();
    let mut z = Put { next: at, at: 0 };
    for k in 0..n {
        z = of_struct(s, ar, z, list);
    }
}
