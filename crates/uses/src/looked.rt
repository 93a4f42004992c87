// What a name stands for (02 §1), by the tables of `layout`: a struct or a step, a parameter, a living local (`specs/Seeing.antt`).
ghost use Rattle.std.specs.Prelude.{◌≡◌, ◌+◌, ◌-◌, ◌≤◌, ◌<◌, ◌&&◌, [], length, get_or, leb};
ghost use Rattle.resolve.specs.Named.{name_at, names_at, sought};
ghost use Rattle.resolve.specs.Checks.{part_of};
ghost use Rattle.resolve.specs.Using.{own_row};
ghost use Rattle.uses.specs.Laws.PartLaws.{up_to};
ghost use Rattle.uses.specs.Lent.{structs_of_table, book_in, Rowed, use_in, Small, Roomy};
ghost use Rattle.uses.specs.Seeing.{called_among, seen_listed, seen_par, seen_local, seen_first, seen_behind};
ghost use Rattle.types.specs.Limits.{step_names, max_locals};
ghost use Rattle.uses.specs.Layout.{declared_end, living_end, numbers_end, bytes_end};

use crate::book::Book;
use crate::{Scope, layout};
use resolve::names;
use text_shape::role;

// One of the n locals that are alive, and the byte of its type.
fn local(text: &[u8], locals: &[usize], n: usize, at: usize) -> Option<(u8, usize)>
    requires { (length locals.now ≡ bytes_end) × (n ≤ max_locals) × Small locals.now n }
    ensures { result ≡ seen_local (names_at text.now (up_to locals.now living_end n)) (up_to locals.now numbers_end n)
        (up_to locals.now bytes_end n) (name_at text.now at) }
{
    let a = layout::LIVING_END - n;
    let k = names::lookup(text, &locals[a..layout::LIVING_END], at)?;
    Some((
        (types::FIRST_LOCAL + locals[a + k + layout::DECLARED_END]) as u8,
        locals[a + k + layout::LIVING_END],
    ))
}

impl Book<'_> {
    // The number of a name among those from a to b of the tables, and a type's byte.
    fn listed(self, a: usize, b: usize, at: usize, typ: usize) -> Option<(u8, usize)>
        requires { (a ≤ b) × (b ≤ a + step_names) × (b ≤ length self.tables.now) }
        ensures { result ≡ seen_listed (names_at self.entry.text.now (part_of self.entry.tables.now a b)) (name_at self.entry.text.now at) typ }
    {
        let n = names::lookup(self.text, &self.tables[a..b], at)?;
        Some((n as u8, typ))
    }

    // A parameter of struct k, and the byte of its type.
    fn parameter(self, k: usize, at: usize) -> Option<(u8, usize)>
        requires { (k < structs_of_table self.tables.now) × Rowed self.tables.now k }
        ensures { result ≡ seen_par (get_or (book_in self.entry.text.now self.entry.tables.now).rows k [])
            (get_or (book_in self.entry.text.now self.entry.tables.now).types k []) (name_at self.entry.text.now at) }
    {
        let a = layout::PARS + self.tables[layout::OFFSETS + k];
        let b = layout::PARS + self.tables[layout::OFFSETS + k + 1];
        let n = names::lookup(self.text, &self.tables[a..b], at)?;
        Some((n as u8, self.tables[a + n + layout::ROWS_ROOM]))
    }

    // The first variable of a path: a parameter of the struct at hand, or a living local.
    pub(crate) fn first(self, locals: &[usize], at: usize, c: Scope) -> Option<(u8, usize)>
        requires { Roomy self.tables.now locals.now c }
        ensures { result ≡ seen_first (book_in self.entry.text.now self.entry.tables.now) (name_at self.entry.text.now at)
            (use_in self.entry.text.now locals.now [] c []) }
    {
        let n = c.living - c.fresh;
        if c.begun == 0 {
            return local(self.text, locals, n, at);
        }
        match self.parameter(c.begun - 1, at) {
            Some(seen) => Some(seen),
            None => local(self.text, locals, n, at),
        }
    }

    // A later variable: a parameter of the struct that a type's byte names.
    pub(crate) fn later(self, at: usize, typ: usize) -> Option<(u8, usize)>
        ensures { result ≡ seen_behind (book_in self.entry.text.now self.entry.tables.now) typ (name_at self.entry.text.now at) }
    {
        let k = typ.checked_sub(usize::from(types::STRUCT))?;
        if k >= self.tables[layout::STRUCT_COUNT] {
            return None;
        }
        self.parameter(k, at)
    }

    // A struct or a step, by the role of its name.
    pub(crate) fn called(self, at: usize, role: u8, typ: usize) -> Option<(u8, usize)>
        ensures { result ≡ seen_listed (called_among (book_in self.entry.text.now self.entry.tables.now) role) (name_at self.entry.text.now at) typ }
    {
        if role == role::CALLED_STRUCT {
            return self.listed(0, self.tables[layout::STRUCT_COUNT], at, typ);
        }
        let end = layout::NAMES + self.tables[layout::NAME_COUNT];
        self.listed(layout::NAMES, end, at, typ)
    }

    // Whether a name is none of a struct's parameters.
    fn no_parameter(self, begun: usize, at: usize) -> bool
        requires { begun ≤ structs_of_table self.tables.now }
        ensures { result ≡ leb (length (own_row (book_in self.entry.text.now self.entry.tables.now).rows begun))
            (sought (name_at self.entry.text.now at) (own_row (book_in self.entry.text.now self.entry.tables.now).rows begun)) }
    {
        begun == 0 || self.parameter(begun - 1, at).is_none()
    }

    // Whether a name is none of a step's locals and none of its struct's parameters.
    pub(crate) fn unused(self, locals: &[usize], at: usize, met: usize, begun: usize) -> bool
        requires begun_le_structs { begun ≤ structs_of_table self.tables.now }
        requires locals_len { (length locals.now ≡ bytes_end) × (met ≤ max_locals) }
        ensures { result ≡ (leb met (sought (name_at self.entry.text.now at) (names_at self.entry.text.now (up_to locals.now declared_end met)))
            && leb (length (own_row (book_in self.entry.text.now self.entry.tables.now).rows begun))
            (sought (name_at self.entry.text.now at) (own_row (book_in self.entry.text.now self.entry.tables.now).rows begun))) }
    {
        let a = layout::DECLARED_END - met;
        names::lookup(self.text, &locals[a..layout::DECLARED_END], at).is_none()
            && self.no_parameter(begun, at)
    }
}
