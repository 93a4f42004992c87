// The bytes of roles by name (02 §1): what `specs/RoleNames.antt` names. Bytes and no enum: a role stands in the lent byte where the token's kind stood.
ghost use Rattle.std.specs.Prelude.{◌≡◌};
ghost use Rattle.text_shape.specs.Roles.{all_roles};

// Names by what they do; those that declare come first.
pub const NEW_STRUCT: u8 = 39;

pub const NEW_PAR: u8 = 40;

pub const NEW_STEP: u8 = 41;

pub const NEW_LOCAL: u8 = 42;

pub const FIRST_READ: u8 = 43;

pub const FIRST_WRITTEN: u8 = 44;

pub const LATER_VARIABLE: u8 = 45;

pub const MADE: u8 = 46;

pub const MADE_STATEMENT: u8 = 47;

pub const CALLED: u8 = 48;

pub const CALLED_STRUCT: u8 = 49;

pub const CALLED_STEP: u8 = 50;

// Types of parameters, of locals, of null.
pub const PAR_INT: u8 = 51;

pub const PAR_NAT: u8 = 52;

pub const PAR_BOOL: u8 = 53;

pub const PAR_STRUCT: u8 = 54;

pub const LOCAL_INT: u8 = 55;

pub const LOCAL_NAT: u8 = 56;

pub const LOCAL_BOOL: u8 = 57;

pub const LOCAL_STRUCT: u8 = 58;

pub const NULL_INT: u8 = 59;

pub const NULL_NAT: u8 = 60;

pub const NULL_BOOL: u8 = 61;

pub const NULL_STRUCT: u8 = 62;

// Brackets, braces, commas and the schedule's < by what they belong to.
pub const BRACKETS_OPEN: u8 = 63;

pub const BRACKETS_CLOSE: u8 = 64;

pub const ARGS_OPEN: u8 = 65;

pub const ARGS_CLOSE: u8 = 66;

pub const NO_ARGS_CLOSE: u8 = 67;

pub const PARS_OPEN: u8 = 68;

pub const PARS_CLOSE: u8 = 69;

pub const FIX_OPEN: u8 = 70;

pub const FIX_CLOSE: u8 = 71;

pub const STEPS_OPEN: u8 = 72;

pub const STEPS_CLOSE: u8 = 73;

pub const BODY_OPEN: u8 = 74;

pub const BODY_CLOSE: u8 = 75;

pub const THEN_OPEN: u8 = 76;

pub const THEN_CLOSE: u8 = 77;

pub const PAR_COMMA: u8 = 78;

pub const ARG_COMMA: u8 = 79;

pub const BARRIER: u8 = 80;

// Where each group begins: names, those that use among them, types, parts; and the last of the types of parameters.
pub const FIRST_NAME: u8 = NEW_STRUCT;

pub const FIRST_USE: u8 = FIRST_READ;

pub const FIRST_TYPE: u8 = PAR_INT;

pub const LAST_PAR_TYPE: u8 = PAR_STRUCT;

pub const FIRST_PART: u8 = BRACKETS_OPEN;

// How many bytes there are of roles, with 0.
pub const COUNT: u8 = 81;

// The byte of every role that has one of its own, in order, so that a contract can tie each constant to its definition.
pub fn all_roles() -> [u8; 42]
    ensures { result ≡ all_roles }
{
    [
        NEW_STRUCT,
        NEW_PAR,
        NEW_STEP,
        NEW_LOCAL,
        FIRST_READ,
        FIRST_WRITTEN,
        LATER_VARIABLE,
        MADE,
        MADE_STATEMENT,
        CALLED,
        CALLED_STRUCT,
        CALLED_STEP,
        PAR_INT,
        PAR_NAT,
        PAR_BOOL,
        PAR_STRUCT,
        LOCAL_INT,
        LOCAL_NAT,
        LOCAL_BOOL,
        LOCAL_STRUCT,
        NULL_INT,
        NULL_NAT,
        NULL_BOOL,
        NULL_STRUCT,
        BRACKETS_OPEN,
        BRACKETS_CLOSE,
        ARGS_OPEN,
        ARGS_CLOSE,
        NO_ARGS_CLOSE,
        PARS_OPEN,
        PARS_CLOSE,
        FIX_OPEN,
        FIX_CLOSE,
        STEPS_OPEN,
        STEPS_CLOSE,
        BODY_OPEN,
        BODY_CLOSE,
        THEN_OPEN,
        THEN_CLOSE,
        PAR_COMMA,
        ARG_COMMA,
        BARRIER,
    ]
}
