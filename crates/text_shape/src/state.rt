// The codes of states that the code names (`specs/CodeNames.antt`), and how many codes there are. Bytes and no enum: the lent stack holds what is open as bytes,
// and the tables of `derive` are indexed by a code.
ghost use Rattle.std.specs.Prelude.{◌≡◌, [], ◌∷◌};
ghost use Rattle.text_shape.specs.CodeNames.{dead_code, first_defs_code, behind_name_code, behind_id_code, behind_execution_code};
ghost use Rattle.text_shape.specs.CodeNames.{behind_item_code, codes};

// No derivation goes on; before the first struct.
pub const DEAD: u8 = 0;

pub const START: u8 = 1;

// Behind a name that begins a statement, an expression, an item of the schedule; behind another item.
pub const BEHIND_NAME: u8 = 14;

pub const BEHIND_ID: u8 = 24;

pub const BEHIND_EXECUTION: u8 = 30;

pub const BEHIND_ITEM: u8 = 33;

// How many codes there are, of states and of what is open.
pub const COUNT: u8 = 47;

// Each of them, so that a contract can tie each constant to its definition.
pub fn all_codes() -> [u8; 7]
    ensures { result ≡ (dead_code ∷ first_defs_code ∷ behind_name_code ∷ behind_id_code ∷ behind_execution_code ∷ behind_item_code ∷ codes ∷ []) }
{
    [
        DEAD,
        START,
        BEHIND_NAME,
        BEHIND_ID,
        BEHIND_EXECUTION,
        BEHIND_ITEM,
        COUNT,
    ]
}
