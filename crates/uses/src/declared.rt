// The places of a text's declarations, which are few where a text has many places (02 §1), and tables of declarations from them.
ghost use Rattle.std.specs.Prelude.{◌≡◌, ◌≤◌, length};
ghost use Rattle.std.proofs.lemmas.List.Edits.{sets};
ghost use Rattle.resolve.specs.Tables.{places, offsets};
ghost use Rattle.uses.specs.Among.{declares, declared_at, AllDeclare};
ghost use Rattle.text_shape.specs.RoleNames.{new_struct_role, new_step_role};

use lexer::bytes;
use resolve::tables;
use text_shape::role;

// A text, the roles of its tokens in their places, and the places of all its declarations.
#[derive(Clone, Copy)]
pub(crate) struct Declarations<'a> {
    pub(crate) text: &'a [u8],
    pub(crate) roles: &'a [u8],
    pub(crate) places: &'a [usize],
    pub(crate) ghost gathered: { places.now ≡ declared_at roles.now },
}

// Whether a role is that of a struct, a parameter, a step or the type of a parameter.
fn declares(role: u8) -> bool
    ensures { result ≡ declares role }
{
    bytes::between(role::NEW_STRUCT, role::NEW_STEP, role)
        || bytes::between(role::FIRST_TYPE, role::LAST_PAR_TYPE, role)
}

// The places of all declarations into a table, as many as it has; and how many there are.
pub(crate) fn all(roles: &[u8], table: &mut [usize]) -> usize
    ensures value { result ≡ length (declared_at roles.now) }
    ensures table_after { table.new ≡ sets table.old 0 (declared_at roles.now) }
{
    let mut n = 0;
    for (i, role) in roles.iter().enumerate() {
        n = tables::add(table, n, i, declares(*role));
    }
    n
}

impl Declarations<'_> {
    // The places of the roles from low to high, of one declaration or of types, into a table, as many as it has; and how many there are.
    pub(crate) fn gather(self, low: u8, high: u8, table: &mut [usize]) -> usize
        requires { AllDeclare low high }
        ensures value { result ≡ length (places low high self.entry.roles.now) }
        ensures table_after { table.new ≡ sets table.old 0 (places low high self.entry.roles.now) }
    {
        let mut n = 0;
        for at in self.places {
            let is = bytes::between(low, high, bytes::byte(self.roles, *at));
            n = tables::add(table, n, *at, is);
        }
        n
    }

    // How many of a role stand before each struct, and in all, into a table, as many as it has.
    pub(crate) fn rows(self, role: u8, table: &mut [usize])
        requires { (new_struct_role ≤ role) × (role ≤ new_step_role) }
        ensures { table.new ≡ sets table.old 0 (offsets role self.entry.roles.now) }
    {
        let mut n = 0;
        let mut k = 0;
        for at in self.places {
            let b = bytes::byte(self.roles, *at);
            k = tables::add(table, k, n, b == role::NEW_STRUCT);
            n = tables::counted(n, b == role);
        }
        tables::put(table, k, n);
    }
}
