// The pass over uses, place by place (02 §1; `resolve/specs/UsingAt.antt`).
ghost use Rattle.std.specs.Prelude.{◌≡◌, ℕ, ◌+◌, ◌≤◌, ◌<◌, true, List, length, drop};
ghost use Rattle.resolve.specs.Using.{use_start};
ghost use Rattle.resolve.specs.UsingAt.{use_at, uses_at};
ghost use Rattle.uses.specs.Lent.{book_in, use_in, Roomy, passed_in, Next, numbered_in, used_out, Counted};
ghost use Rattle.uses.specs.Seeing.{Quiet};
ghost use Rattle.uses.specs.Stopping.{stops_at, stop_in};
ghost use Rattle.uses.specs.Layout.{bytes_end};

use crate::book::Book;
use crate::{NoProgram, Passed, Scope, parts};
use lexer::gaps;
use text_shape::role;
use tokens::kind;

// Whether a token by its role leaves the pass as it is: a word, a sign but for the semicolon, an operator; the most of the brackets.
fn quiet(role: u8) -> bool
    ensures { result ≡ true → Quiet role }
{
    match role {
        kind::SEMICOLON => false,
        0..kind::INT => true,
        role::FIRST_PART..role::ARGS_CLOSE => true,
        _ => role > role::NO_ARGS_CLOSE && role < role::BODY_CLOSE,
    }
}

impl Book<'_> {
    // One place where a token begins.
    fn use_at(self, locals: &mut [usize], stack: &mut [u8], at: usize, role: u8, c: Scope) -> Passed
        requires { Roomy self.tables.now locals.old c × (c.dues + c.bodies < length stack.old) × (at < length self.text.now) }
        ensures by_index { (o : List ℕ) → passed_in self.entry.text.now locals.new stack.new result o
            ≡ use_at (book_in self.entry.text.now self.entry.tables.now) role (drop at self.entry.text.now)
            (use_in self.entry.text.now locals.old stack.old c o) }
        ensures next { Next self.entry.tables.now locals.new c result }
        ensures stack_len_unchanged { (length stack.new ≡ length stack.old) × (length locals.new ≡ length locals.old) }
    {
        if quiet(role) {
            return Some((c, None));
        }
        if role < role::FIRST_NAME {
            return parts::kind_role(self.text, at, role, c);
        }
        if role < role::FIRST_USE {
            return self.declared_name(locals, at, role, c);
        }
        if role < role::FIRST_TYPE {
            return self.used_name(locals, stack, at, role, c);
        }
        if role < role::FIRST_PART {
            return self.type_role(at, role, c);
        }
        parts::part_role(stack, role, c)
    }

    // The numbers of a text's uses, in order, and their count; or that there are none (17), and the place of the token at which that is told.
    pub(crate) fn uses(
        self,
        roles: &[u8],
        locals: &mut [usize],
        stack: &mut [u8],
        numbers: &mut [u8],
    ) -> Result<usize, NoProgram>
        requires locals_len { length locals.old ≡ bytes_end }
        requires roles_len { (length roles.now ≡ length self.text.now) × (length roles.now < length stack.old) × (length roles.now ≤ length numbers.old) }
        ensures result_after { numbered_in numbers.new result
            ≡ used_out (uses_at (book_in self.entry.text.now self.entry.tables.now) self.entry.text.now roles.now use_start) }
        ensures counted { Counted numbers.new result (Unit {0}) }
        ensures roles_value { (stop_in result (length roles.now)
            ≡ stops_at (book_in self.entry.text.now self.entry.tables.now) self.entry.text.now roles.now use_start)
            × (stop_in result (length roles.now) ≤ length roles.now) }
        ensures stack_len_unchanged { (length stack.new ≡ length stack.old) × (length locals.new ≡ length locals.old)
            × (length numbers.new ≡ length numbers.old) }
    {
        let mut c = Scope {
            begun: 0,
            met: 0,
            living: 0,
            fresh: 0,
            typ: 0,
            dues: 0,
            bodies: 0,
        };
        let mut n = 0;
        // From token to token, not from place to place.
        let mut i = gaps::first(roles);
        while i < roles.len() {
            let at = i;
            i = gaps::next(roles, at + 1);
            match self.use_at(locals, stack, at, roles[at], c) {
                None => return Err(NoProgram { at }),
                Some((d, None)) => {
                    c = d;
                }
                Some((d, Some(m))) => {
                    numbers[n] = m;
                    n += 1;
                    c = d;
                }
            }
        }
        Ok(n)
    }
}
