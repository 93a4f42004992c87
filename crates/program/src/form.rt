// The byte that opens each form of a program stream (01, 'Program stream'): what `specs/Forms.antt` names. They are
// constants, and no enum, since a byte that was read is told apart by a `match` on them, and of many forms by where they lie.
ghost use Rattle.std.specs.Prelude.{◌≡◌, [], ◌∷◌};
ghost use Rattle.program.specs.Forms.{when_form, declare_form, update_form, create_form, inv_form, make_form, path_form, int_form};
ghost use Rattle.program.specs.Forms.{nat_form, bool_form, null_form, this_form, eq_form, mul_form, add_form, and_form, or_form};
ghost use Rattle.program.specs.Forms.{call_form, call_in_form, fix_form};

// Statements.
pub const WHEN: u8 = 1;

pub const DECLARE: u8 = 2;

pub const UPDATE: u8 = 3;

pub const CREATE: u8 = 4;

// Expressions; from `EQ` on operators, of which comparisons come first, then products, sums, `AND`, `OR`.
pub const INV: u8 = 16;

pub const MAKE: u8 = 17;

pub const PATH: u8 = 18;

pub const INT: u8 = 19;

pub const NAT: u8 = 20;

pub const BOOL: u8 = 21;

pub const NULL: u8 = 22;

pub const THIS: u8 = 23;

pub const EQ: u8 = 32;

pub const MUL: u8 = 38;

pub const ADD: u8 = 41;

pub const AND: u8 = 43;

pub const OR: u8 = 44;

// Items of the schedule.
pub const CALL: u8 = 1;

pub const CALL_IN: u8 = 2;

pub const FIX: u8 = 3;

// Each of them, in order, so that a contract can tie each constant to its definition.
pub fn all_forms() -> [u8; 20]
    ensures { result ≡ (when_form ∷ declare_form ∷ update_form ∷ create_form ∷ inv_form ∷ make_form ∷ path_form ∷ int_form ∷ nat_form ∷
        bool_form ∷ null_form ∷ this_form ∷ eq_form ∷ mul_form ∷ add_form ∷ and_form ∷ or_form ∷ call_form ∷ call_in_form ∷
        fix_form ∷ []) }
{
    [
        WHEN, DECLARE, UPDATE, CREATE, INV, MAKE, PATH, INT, NAT, BOOL, NULL, THIS, EQ, MUL, ADD,
        AND, OR, CALL, CALL_IN, FIX,
    ]
}
