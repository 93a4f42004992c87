// What each of the 81 roles does (`compose/specs/Writing.antt`), as four tables in a row, a number as the byte of a digit's place above `ZERO`.
ghost use Rattle.std.specs.Prelude.{◌≡◌, [], ◌<◌, get_or};
ghost use Rattle.composing.specs.RoleTable.{mark_tables, mark_bytes};
ghost use Rattle.text_shape.specs.RoleNames.{role_count};

use text_shape::role;

// What a role lets go first, what stands behind its form's byte, the form's byte, what it does to what waits.
static MARKS: [u8; 324] =
    *b"001000000000000000001002222222222222000000000001000000000000000101000000000000010\
    000000000005600000000000000000000000044001133211111000011111111000000000000000000\
    0010FG30000EE000000000@00000000000000CD0000B30A4120000022220000000000000000000000\
    001300100000000000030005555555555555000002001001110000011110000030330043064343030";

// How many bytes there are of roles; the byte of the number 0.
const ROLES: usize = role::COUNT as usize;

const ZERO: u8 = b'0';

pub(crate) const POURING: usize = 0;

pub(crate) const BEHIND: usize = 1;

pub(crate) const FORM: usize = 2;

pub(crate) const STACKING: usize = 3;

fn marks() -> &'static [u8]
    ensures { result.now ≡ mark_bytes }
{
    &MARKS
}

// What one of the tables says of a role.
pub(crate) fn mark(table: usize, c: usize) -> u8
    requires { (table < 4) × (c < role_count) }
    ensures { result ≡ get_or (get_or mark_tables table []) c 0 }
{
    let i = ROLES * table + c;
    let b = marks()[i];
    b - ZERO
}
