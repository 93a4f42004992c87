// The tables that the pass over uses is lent, by name: what `specs/Layout.antt` names.
ghost use Rattle.std.specs.Prelude.{◌≡◌};
ghost use Rattle.uses.specs.Layout.{layout};

// How many places parts of the table of declarations have: an offset for each struct and one behind the last; parameters, or steps, of all structs.
pub const OFFSETS_ROOM: usize = types::MAX_STRUCTS + 1;

pub const ROWS_ROOM: usize = types::MAX_STRUCTS * types::MAX_PARAMS;

// Where each part begins behind the places of structs, and each count stands.
pub const OFFSETS: usize = types::MAX_STRUCTS;

pub const PARS: usize = OFFSETS + OFFSETS_ROOM;

pub const TYPES: usize = PARS + ROWS_ROOM;

pub const NAMES: usize = TYPES + ROWS_ROOM;

pub const STRUCT_COUNT: usize = NAMES + types::STEP_NAMES;

pub const NAME_COUNT: usize = STRUCT_COUNT + 1;

pub const TABLE_SIZE: usize = NAME_COUNT + 1;

// Declarations of all kinds: structs, parameters, their types, steps.
pub const ALL_MANY: usize = types::MAX_STRUCTS + 3 * ROWS_ROOM;

// Where each part of the table of locals ends: those declared, those alive, their numbers, the bytes of their types.
pub const DECLARED_END: usize = types::VARIABLES - types::FIRST_LOCAL;

pub const LIVING_END: usize = 2 * DECLARED_END;

pub const NUMBERS_END: usize = 3 * DECLARED_END;

pub const BYTES_END: usize = 4 * DECLARED_END;

// Every place, in order, so that a contract can tie each constant to its definition.
pub fn all_places() -> [usize; 14]
    ensures { result ≡ layout }
{
    [
        OFFSETS_ROOM,
        ROWS_ROOM,
        OFFSETS,
        PARS,
        TYPES,
        NAMES,
        STRUCT_COUNT,
        NAME_COUNT,
        TABLE_SIZE,
        ALL_MANY,
        DECLARED_END,
        LIVING_END,
        NUMBERS_END,
        BYTES_END,
    ]
}
