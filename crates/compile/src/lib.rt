// What a run prepares of an accepted program before a machine is seated (01, 'Table and turns'): where the commands of each step will stand in the
// list, and the schedule laid flat.
#![tactic(auto)]

pub mod items;
pub mod spans;

ghost use Rattle.compile.specs.Prepared.{Preparable, PreparedProgram};

// A program of so many structs, whose schedule begins at a place and whose steps have n rows: a loop over the rows, and a walk over the schedule.
// The span of a step that its struct has not is free, save that its end lies before its beginning.
pub fn program(
    s: &[u8],
    at: usize,
    structs: usize,
    rows: &[u16],
    n: usize,
    spans: &mut [u16],
    codes: &mut [usize],
)
    requires { Preparable s.now at structs rows.now n spans.old codes.old }
    ensures { PreparedProgram s.now spans.new codes.old codes.new }
{
    spans::of_rows(rows, n, structs, spans);
    items::schedule(s, at, codes);
}
