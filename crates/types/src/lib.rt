// Types and limits (01): every number that 01 sets a bound by as a constant, the bytes of types, and functions of a type, which is named by its byte.
#![tactic(auto)]

pub mod number;
pub mod refusal;

ghost use Rattle.std.specs.Prelude.{◌≡◌};
ghost use Rattle.types.specs.Types.{type_of};
ghost use Rattle.types.specs.TypeBytes.{is_type, is_ref, struct_of};
ghost use Rattle.types.specs.Values.{default, word};
ghost use Rattle.types.specs.Constants.{limits, codes};

// 01, 'Program stream'
pub const MAX_STRUCTS: usize = 16;

pub const MAX_PARAMS: usize = 8;

pub const MAX_STEPS: usize = 8;

pub const STEP_NAMES: usize = 32;

pub const MAX_STATEMENTS: usize = 32;

pub const MAX_ITEMS: usize = 32;

pub const INT_HALF: u64 = 2147483648;

pub const NAT_END: u64 = 4294967296;

pub const FIRST_LOCAL: usize = 8;

pub const VARIABLES: usize = 16;

pub const MAX_PATH: usize = 4;

pub const FIX_LEVELS: usize = 8;

pub const IF_LEVELS: usize = 8;

pub const EXPR_LEVELS: usize = 16;

// 01, 'Table and turns'
pub const MAX_INSTANCES: usize = 256;

// 01, 'Numbers from the input'
pub const PROGRAM_BLOCKS: usize = 64;

pub const TABLE_BLOCKS: usize = 17;

pub const STEP_COMMANDS: usize = 64;

pub const MAX_COMMANDS: usize = 1024;

pub const MAX_DEPTH: usize = 16;

pub const SCHEDULE_ITEMS: usize = 64;

pub const MAX_TURNS: usize = 65536;

// The bytes of types; struct k's is k more than that of struct 0.
pub const INT: u8 = 0;

pub const NAT: u8 = 1;

pub const BOOL: u8 = 2;

pub const STRUCT: u8 = 16;

// Whether a byte is a type of a program with that many structs.
pub fn is_type(structs: u8, code: u8) -> bool
    ensures { result ≡ is_type structs code }
{
    code <= BOOL || (STRUCT <= code && code - STRUCT < structs)
}

// Whether the values of a type are labels.
pub fn is_reference(code: u8) -> bool
    ensures { result ≡ is_ref (type_of code) }
{
    BOOL < code
}

// The struct of a type, and 0 of a type that is none.
pub fn struct_of(code: u8) -> u8
    ensures { result ≡ struct_of (type_of code) }
{
    code.saturating_sub(STRUCT)
}

// The four bytes of a type's default value, as one number.
pub fn default_word(code: u8) -> u32
    ensures { result ≡ word (default (type_of code)) }
{
    u32::from(struct_of(code))
}

// Every limit, in order, so that a contract can tie each constant to its definition; every byte of a type, likewise.
pub fn all_limits() -> [u64; 22]
    ensures { result ≡ limits }
{
    [
        MAX_STRUCTS as u64,
        MAX_PARAMS as u64,
        MAX_STEPS as u64,
        STEP_NAMES as u64,
        MAX_STATEMENTS as u64,
        MAX_ITEMS as u64,
        INT_HALF,
        NAT_END,
        FIRST_LOCAL as u64,
        VARIABLES as u64,
        MAX_PATH as u64,
        FIX_LEVELS as u64,
        IF_LEVELS as u64,
        EXPR_LEVELS as u64,
        MAX_INSTANCES as u64,
        PROGRAM_BLOCKS as u64,
        TABLE_BLOCKS as u64,
        STEP_COMMANDS as u64,
        MAX_COMMANDS as u64,
        MAX_DEPTH as u64,
        SCHEDULE_ITEMS as u64,
        MAX_TURNS as u64,
    ]
}

pub fn all_codes() -> [u8; 4]
    ensures { result ≡ codes }
{
    [INT, NAT, BOOL, STRUCT]
}
