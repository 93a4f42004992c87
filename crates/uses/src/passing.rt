// What a name or a type does to the pass over uses (02 §1; `resolve/specs/Using.antt`).
ghost use Rattle.std.specs.Prelude.{◌≡◌, ℕ, ◌+◌, ◌-◌, ◌≤◌, ◌<◌, List, length, drop};
ghost use Rattle.resolve.specs.Named.{name_at};
ghost use Rattle.resolve.specs.Using.{use_made, use_new, use_name, use_type};
ghost use Rattle.text_shape.specs.Roles.{Naming.new_struct};
ghost use Rattle.resolve.specs.Checks.{type_here};
ghost use Rattle.resolve.specs.UsingAt.{naming_at, typed_at, number_at};
ghost use Rattle.uses.specs.Lent.{book_in, use_in, Roomy, passed_in, Next};
ghost use Rattle.uses.specs.Seeing.{seen_passed, with_local};
ghost use Rattle.text_shape.specs.RoleNames.{local_int_role, first_name_role, first_use_role, first_type_role, first_part_role};
ghost use Rattle.types.specs.Limits.{max_locals};
ghost use Rattle.uses.specs.Layout.{bytes_end};

use crate::book::Book;
use crate::{Passed, Scope, layout};
use resolve::{declarations, names};
use text_shape::role;

// A number is left, with a type; nothing stops the pass.
fn left(c: Scope, seen: Option<(u8, usize)>) -> Passed
    ensures { result ≡ seen_passed c seen }
{
    let (n, typ) = seen?;
    Some((Scope { typ, ..c }, Some(n)))
}

// A local into its table: its place, its number and the byte of its type.
fn store(locals: &mut [usize], at: usize, met: usize, n: usize, typ: usize)
    requires { (length locals.old ≡ bytes_end) × (met < max_locals) × (n < max_locals) }
    ensures { locals.new ≡ with_local locals.old at met n typ }
{
    locals[layout::DECLARED_END - (met + 1)] = at;
    locals[layout::LIVING_END - (n + 1)] = at;
    locals[layout::NUMBERS_END - (n + 1)] = met;
    locals[layout::BYTES_END - (n + 1)] = typ;
}

// The number of a type among the four kinds, by its role behind a declaration or null.
fn type_number(role: u8) -> u8
    requires { (local_int_role ≤ role) × (role < first_part_role) }
    ensures { result ≡ number_at role }
{
    if role < role::NULL_INT {
        return role - role::LOCAL_INT;
    }
    role - role::NULL_INT
}

impl Book<'_> {
    // A struct is begun.
    fn begin(self, c: Scope) -> Passed
        ensures o_value { (x y l k o : List ℕ) → passed_in x l k result o ≡ use_name (book_in x self.entry.tables.now) new_struct y (use_in x l k c o) }
        ensures by_index { (l : List ℕ) → Roomy self.entry.tables.now l c → Next self.entry.tables.now l c result }
    {
        if c.begun >= self.tables[layout::STRUCT_COUNT] {
            return None;
        }
        let begun = c.begun + 1;
        Some((Scope { begun, ..c }, None))
    }

    // The struct of a constructor: as many arguments are due as it has parameters.
    fn made(self, stack: &mut [u8], at: usize, c: Scope) -> Passed
        requires { c.dues + c.bodies < length stack.old }
        ensures by_index { (l o : List ℕ) → passed_in self.entry.text.now l stack.new result o
            ≡ use_made (book_in self.entry.text.now self.entry.tables.now) (name_at self.entry.text.now at)
            (use_in self.entry.text.now l stack.old c o) }
        ensures by_index_2 { (l : List ℕ) → Roomy self.entry.tables.now l c → Next self.entry.tables.now l c result }
        ensures stack_len_unchanged { length stack.new ≡ length stack.old }
    {
        let s = self.tables[layout::STRUCT_COUNT];
        let n = names::lookup(self.text, &self.tables[0..s], at)?;
        let h = c.dues;
        stack[h] = (self.tables[layout::OFFSETS + n + 1] - self.tables[layout::OFFSETS + n]) as u8;
        let dues = h + 1;
        Some((Scope { dues, ..c }, Some(n as u8)))
    }

    // A local is declared: it comes alive behind its declaration.
    fn declare(self, locals: &mut [usize], at: usize, c: Scope) -> Passed
        requires { Roomy self.tables.now locals.old c }
        ensures by_index { (k o : List ℕ) → passed_in self.entry.text.now locals.new k result o
            ≡ use_new (book_in self.entry.text.now self.entry.tables.now) (name_at self.entry.text.now at)
            (use_in self.entry.text.now locals.old k c o) }
        ensures next { Next self.entry.tables.now locals.new c result }
        ensures locals_len_unchanged { length locals.new ≡ length locals.old }
    {
        let met = c.met;
        if !self.unused(locals, at, met, c.begun) {
            return None;
        }
        if met >= types::VARIABLES - types::FIRST_LOCAL {
            return None;
        }
        let n = c.living - c.fresh;
        store(locals, at, met, n, c.typ);
        let scope = Scope {
            met: met + 1,
            living: n + 1,
            fresh: 1,
            ..c
        };
        Some((scope, Some((types::FIRST_LOCAL + met) as u8)))
    }

    // A name that declares, by its role: a struct, a parameter, a step, a local.
    pub(crate) fn declared_name(self, locals: &mut [usize], at: usize, role: u8, c: Scope) -> Passed
        requires { Roomy self.tables.now locals.old c × (first_name_role ≤ role) × (role < first_use_role) }
        ensures by_index { (k o : List ℕ) → passed_in self.entry.text.now locals.new k result o
            ≡ use_name (book_in self.entry.text.now self.entry.tables.now) (naming_at role) (name_at self.entry.text.now at)
            (use_in self.entry.text.now locals.old k c o) }
        ensures next { Next self.entry.tables.now locals.new c result }
        ensures locals_len_unchanged { length locals.new ≡ length locals.old }
    {
        match role {
            role::NEW_STRUCT => self.begin(c),
            role::NEW_PAR => Some((c, None)),
            role::NEW_STEP => left(c, self.called(at, role, c.typ)),
            _ => self.declare(locals, at, c),
        }
    }

    // A name that is used, by its role: the first variable of a path, a later one, the struct of a constructor, a struct or a step in the schedule.
    pub(crate) fn used_name(
        self,
        locals: &[usize],
        stack: &mut [u8],
        at: usize,
        role: u8,
        c: Scope,
    ) -> Passed
        requires { Roomy self.tables.now locals.now c × (c.dues + c.bodies < length stack.old) × (first_use_role ≤ role)
            × (role < first_type_role) }
        ensures by_index { (o : List ℕ) → passed_in self.entry.text.now locals.now stack.new result o
            ≡ use_name (book_in self.entry.text.now self.entry.tables.now) (naming_at role) (name_at self.entry.text.now at)
            (use_in self.entry.text.now locals.now stack.old c o) }
        ensures next { Next self.entry.tables.now locals.now c result }
        ensures stack_len_unchanged { length stack.new ≡ length stack.old }
    {
        if role < role::LATER_VARIABLE {
            return left(c, self.first(locals, at, c));
        }
        if role < role::MADE {
            return left(c, self.later(at, c.typ));
        }
        if role < role::CALLED {
            return self.made(stack, at, c);
        }
        left(c, self.called(at, role, c.typ))
    }

    // A type behind a declaration or null.
    pub(crate) fn type_role(self, at: usize, role: u8, c: Scope) -> Passed
        requires { (first_type_role ≤ role) × (role < first_part_role) }
        ensures by_index { (l k o : List ℕ) → passed_in self.entry.text.now l k result o
            ≡ use_type (book_in self.entry.text.now self.entry.tables.now) (typed_at role) (type_here (number_at role) (drop at self.entry.text.now))
            (use_in self.entry.text.now l k c o) }
        ensures by_index_2 { (l : List ℕ) → Roomy self.entry.tables.now l c → Next self.entry.tables.now l c result }
    {
        if role < role::LOCAL_INT {
            return Some((c, None));
        }
        let s = self.tables[layout::STRUCT_COUNT];
        let b = declarations::type_byte(self.text, &self.tables[0..s], type_number(role), at);
        if b >= usize::from(types::STRUCT) + s {
            return None;
        }
        left(c, Some((b as u8, b)))
    }
}
