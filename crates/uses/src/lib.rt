// What the names of a text's steps and schedule stand for (02 §1), in code: tables of declarations, and the pass over the places of a text by them.
#![tactic(auto)]

mod book;
mod declared;
pub mod layout;
pub mod looked;
pub mod parts;
pub mod pass;
pub mod passing;
pub mod tabling;

ghost use Rattle.std.specs.Prelude.{◌≡◌, ◌<◌, ◌≤◌, length};
ghost use Rattle.types.specs.declared.refusal.Refusal.TheVariants.{NoProgram as Unnumbered};
ghost use Rattle.resolve.specs.Resolved.{resolved};
ghost use Rattle.uses.specs.Declaring.{Fronted, Tabled};
ghost use Rattle.uses.specs.Lent.{numbered_in, Counted};
ghost use Rattle.uses.specs.Stopping.{stops, stop_in};
ghost use Rattle.uses.specs.Layout.{table_size};

use book::Book;
use types::refusal::Refusal;

// Where the pass stands: structs begun, locals declared, those alive with the one that is not alive yet, whether there is such a one, the byte of the type
// passed last, argument lists open, ifs open.
#[derive(Clone, Copy)]
pub struct Scope {
    pub begun: usize,
    pub met: usize,
    pub living: usize,
    pub fresh: usize,
    pub typ: usize,
    pub dues: usize,
    pub bodies: usize,
}

// What one place does to where the pass stands: where it stands then, and the number that is left there, if one is; or none, where 17 holds.
pub(crate) type Passed = Option<(Scope, Option<u8>)>;

// That 17 holds, and the place at which the pass stopped.
#[derive(Clone, Copy)]
pub struct NoProgram {
    pub at: usize,
}

impl From<NoProgram> for Refusal {
    ghost from_gives = { λ stop refusal. refusal ≡ Unnumbered };

    fn from(_stop: NoProgram) -> Refusal {
        Refusal::NoProgram
    }
}

// The numbers of a text's names, in order, and their count; or that 17 holds for names or declarations. The tables of declarations stay.
pub fn numbers(
    text: &[u8],
    roles: &[u8],
    tables: &mut [usize],
    stack: &mut [u8],
    numbers: &mut [u8],
) -> Result<usize, NoProgram>
    requires roles_len { (length roles.now ≡ length text.now) × (length roles.now < length stack.old) }
    requires roles_in_bounds { (length roles.now ≤ length numbers.old) × (length tables.old ≡ table_size) }
    requires fronted { Fronted roles.now }
    ensures result_after { numbered_in numbers.new result ≡ resolved text.now roles.now }
    ensures counted { Counted numbers.new result (Tabled text.now roles.now tables.new) }
    ensures roles_value { (stop_in result (length roles.now) ≡ stops text.now roles.now)
        × (stop_in result (length roles.now) ≤ length roles.now) }
{
    if !tabling::fill(text, roles, tables) {
        return Err(NoProgram { at: 0 });
    }
    let mut locals = [0usize; layout::BYTES_END];
    Book { text, tables }.uses(roles, &mut locals, stack, numbers)
}
