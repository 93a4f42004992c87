// The tables of a text's declarations (02 §1): places and counts into one lent table (`layout`), and whether a stream has numbers for them
// (`resolve/specs/WellDeclared.antt`).
ghost use Rattle.std.specs.Prelude.{◌≡◌, true, ◌≤◌, length};
ghost use Rattle.std.proofs.lemmas.List.Edits.{sets};
ghost use Rattle.resolve.specs.Tables.{places, offsets};
ghost use Rattle.resolve.specs.Checks.{narrow, known};
ghost use Rattle.resolve.specs.WellDeclared.{tables_ok};
ghost use Rattle.uses.specs.Declaring.{Fronted, Tabled, type_bytes};
ghost use Rattle.uses.specs.Tabling.{Gathered, Laid, tested};
ghost use Rattle.text_shape.specs.RoleNames.{new_struct_role, new_step_role, first_type_role, last_par_type_role};
ghost use Rattle.types.specs.Limits.{max_structs, step_names};
ghost use Rattle.uses.specs.Layout.{rows_room, table_size};

use crate::declared::{self, Declarations};
use crate::layout;
use resolve::{declarations, tables};
use text_shape::role;

impl Declarations<'_> {
    // The places of step names into a table, and how many there are; none of it where there are more steps than a stream has room for.
    fn step_names(self, table: &mut [usize]) -> usize
        requires { length table.old ≡ step_names }
        ensures { Gathered self.entry.text.now self.entry.roles.now table.old table.new result }
    {
        let mut places = [0usize; layout::ROWS_ROOM];
        let n = self.gather(role::NEW_STEP, role::NEW_STEP, &mut places);
        if n > layout::ROWS_ROOM {
            return 0;
        }
        declarations::step_names(self.text, &places[..n], table)
    }

    // All places and counts into the table.
    fn lay(self, table: &mut [usize])
        requires { length table.old ≡ table_size }
        ensures { Laid self.entry.text.now self.entry.roles.now table.new }
    {
        let s = self.gather(
            role::NEW_STRUCT,
            role::NEW_STRUCT,
            &mut table[0..layout::OFFSETS],
        );
        self.rows(role::NEW_PAR, &mut table[layout::OFFSETS..layout::PARS]);
        self.gather(
            role::NEW_PAR,
            role::NEW_PAR,
            &mut table[layout::PARS..layout::TYPES],
        );
        let k = self.step_names(&mut table[layout::NAMES..layout::STRUCT_COUNT]);
        table[layout::STRUCT_COUNT] = s;
        table[layout::NAME_COUNT] = k;
    }

    // Whether every struct has few steps.
    fn few_steps(self, s: usize) -> bool
        requires { (s ≡ length (places new_struct_role new_struct_role self.roles.now)) × (s ≤ max_structs) }
        ensures { result ≡ narrow (offsets new_step_role self.entry.roles.now) }
    {
        let mut rows = [0usize; layout::OFFSETS_ROOM];
        self.rows(role::NEW_STEP, &mut rows);
        declarations::narrow(&rows[..s + 1])
    }

    // Whether every test but that of types holds. Each test allows what the next one slices, so that they stand one after the other.
    fn well(self, table: &[usize]) -> bool
        requires { Laid self.text.now self.roles.now table.now × Fronted self.roles.now }
        ensures { result ≡ tested self.entry.text.now self.entry.roles.now }
    {
        let s = table[layout::STRUCT_COUNT];
        if s > types::MAX_STRUCTS {
            return false;
        }
        if !tables::distinct(self.text, &table[..s]) {
            return false;
        }
        let n = table[layout::OFFSETS + s];
        if n > layout::ROWS_ROOM {
            return false;
        }
        if !declarations::rows_ok(
            self.text,
            &table[layout::PARS..layout::PARS + n],
            &table[layout::OFFSETS..layout::OFFSETS + 1 + s],
        ) {
            return false;
        }
        if !self.few_steps(s) {
            return false;
        }
        table[layout::NAME_COUNT] <= types::STEP_NAMES
    }

    // The bytes of the types of parameters into a table, and whether each is one.
    fn par_types(self, table: &mut [usize]) -> bool
        requires { (length (places new_struct_role new_struct_role self.roles.now) ≤ max_structs)
            × (length (places first_type_role last_par_type_role self.roles.now) ≤ rows_room) }
        ensures value { result ≡ known (length (places new_struct_role new_struct_role self.entry.roles.now)) (type_bytes self.entry.text.now self.entry.roles.now) }
        ensures table_after { result ≡ true → table.new ≡ sets table.old 0 (type_bytes self.entry.text.now self.entry.roles.now) }
    {
        let mut structs = [0usize; types::MAX_STRUCTS];
        let s = self.gather(role::NEW_STRUCT, role::NEW_STRUCT, &mut structs);
        let mut places = [0usize; layout::ROWS_ROOM];
        let n = self.gather(role::FIRST_TYPE, role::LAST_PAR_TYPE, &mut places);
        declarations::types(self.text, self.roles, &structs[..s], &places[..n], table)
    }

    // All tables by the places of declarations, and whether every test of them holds.
    fn filled(self, table: &mut [usize]) -> bool
        requires { (length table.old ≡ table_size) × Fronted self.roles.now }
        ensures value { result ≡ tables_ok self.entry.text.now self.entry.roles.now }
        ensures tabled { result ≡ true → Tabled self.entry.text.now self.entry.roles.now table.new }
        ensures table_len_unchanged { length table.new ≡ length table.old }
    {
        self.lay(table);
        if !self.well(table) {
            return false;
        }
        self.par_types(&mut table[layout::TYPES..layout::NAMES])
    }
}

// All tables, and whether every test of them holds: declarations are gathered once.
pub(crate) fn fill(text: &[u8], roles: &[u8], table: &mut [usize]) -> bool
    requires { (length table.old ≡ table_size) × Fronted roles.now }
    ensures value { result ≡ tables_ok text.now roles.now }
    ensures tabled { result ≡ true → Tabled text.now roles.now table.new }
    ensures table_len_unchanged { length table.new ≡ length table.old }
{
    let mut places = [0usize; layout::ALL_MANY];
    let n = declared::all(roles, &mut places);
    if n > layout::ALL_MANY {
        return false;
    }
    let declarations = Declarations {
        text,
        roles,
        places: &places[..n],
    };
    declarations.filled(table)
}
