// The role of a token by codes and kinds (`specs/RoleMarks.antt`), left in the place of its kind.
ghost use Rattle.std.specs.Prelude.{◌≡◌, ◌<◌, ◌≤◌, length, IfSome, unwrap_or};
ghost use Rattle.text_shape.specs.Shape.{Shape.shape, sample};
ghost use Rattle.text_shape.specs.RoleMarks.{mark, said, role, renamed};
ghost use Rattle.derive.specs.Table.{entries, mark_at};
ghost use Rattle.derive.specs.Held.{held};
ghost use Rattle.derive.specs.Leaving.{left};

use crate::{Mark, index, table};
use text_shape::{role, state};
use tokens::kind;

// Two bytes of the table that are no role: the kind says it all; what was opened last says it.
const BY_KIND: u8 = 95;

const BY_OPENED: u8 = 94;

// What a byte of the table says of a token of kind k.
fn said(m: u8, k: u8) -> u8
    ensures { result ≡ said m k }
{
    if m == BY_KIND { k } else { m }
}

// The role of a token, with its place in the tables, by the state that it meets, or by what was opened last.
pub(crate) fn role(stack: &[u8], m: Mark, k: u8, e: usize) -> u8
    requires { (m.height ≤ length stack.now) × (e < entries) × (mark_at e ≡ mark m.state (sample k)) }
    ensures { result ≡ role (shape m.state (held stack.now m.height)) k }
{
    let b = table::mark_at(e);
    if b != BY_OPENED {
        said(b, k)
    } else if m.height == 0 {
        k
    } else {
        said(table::mark_at(index(stack[m.height - 1], k)), k)
    }
}

// The other role of a name that waits, by the kind after it.
pub(crate) fn renamed(q: u8, k: u8) -> Option<u8>
    ensures value { unwrap_or result 0 ≡ renamed q k }
    ensures some { IfSome result (λ role. 0 < role) }
{
    match (q, k) {
        (state::BEHIND_NAME, kind::NAME) => Some(role::LOCAL_STRUCT),
        (state::BEHIND_NAME, kind::LPAR) => Some(role::MADE_STATEMENT),
        (state::BEHIND_ID, kind::LPAR) => Some(role::MADE),
        (state::BEHIND_EXECUTION, kind::DOT) => Some(role::CALLED_STRUCT),
        _ => None,
    }
}

// A token's role in its place, and the other role of the name before it, if it gets one.
pub(crate) fn leave(kinds: &mut [u8], i: usize, last: usize, role: u8, other: Option<u8>)
    requires { (i < length kinds.old) × (last < length kinds.old) × IfSome other (λ role. 0 < role) }
    ensures { kinds.new ≡ left kinds.old i last role (unwrap_or other 0) }
{
    if let Some(other) = other {
        kinds[last] = other;
    }
    kinds[i] = role;
}
