// The kinds of tokens by name (02 §1): what `specs/KindNames.antt` names. Bytes and no enum: one lent byte for each place of a text holds a kind, then a role.
ghost use Rattle.std.specs.Prelude.{◌≡◌};
ghost use Rattle.tokens.specs.Kinds.{all_kinds};

// No token begins there.
pub const NONE: u8 = 0;

// The grammar's words.
pub const STRUCT: u8 = 1;

pub const IF: u8 = 2;

pub const THEN: u8 = 3;

pub const NULL: u8 = 4;

pub const THIS: u8 = 5;

pub const FIX: u8 = 6;

pub const INT_TYPE: u8 = 7;

pub const NAT_TYPE: u8 = 8;

pub const BOOL_TYPE: u8 = 9;

pub const STRING_TYPE: u8 = 10;

pub const TRUE: u8 = 11;

pub const FALSE: u8 = 12;

// Signs.
pub const LPAR: u8 = 13;

pub const RPAR: u8 = 14;

pub const LBRACE: u8 = 15;

pub const RBRACE: u8 = 16;

pub const COMMA: u8 = 17;

pub const COLON: u8 = 18;

pub const SEMICOLON: u8 = 19;

pub const ASSIGN: u8 = 20;

pub const DOT: u8 = 21;

pub const BANG: u8 = 22;

// Operators.
pub const EQ: u8 = 23;

pub const NE: u8 = 24;

pub const LE: u8 = 25;

pub const GE: u8 = 26;

pub const LT: u8 = 27;

pub const GT: u8 = 28;

pub const MUL: u8 = 29;

pub const DIV: u8 = 30;

pub const REM: u8 = 31;

pub const ADD: u8 = 32;

pub const SUB: u8 = 33;

pub const AND: u8 = 34;

pub const OR: u8 = 35;

// A name; literals.
pub const NAME: u8 = 36;

pub const INT: u8 = 37;

pub const NAT: u8 = 38;

// How many kinds there are, with that of no token.
pub const COUNT: u8 = 39;

// Every kind, in order, so that a contract can tie each constant to its definition.
pub fn all_kinds() -> [u8; 39]
    ensures { result ≡ all_kinds }
{
    [
        NONE,
        STRUCT,
        IF,
        THEN,
        NULL,
        THIS,
        FIX,
        INT_TYPE,
        NAT_TYPE,
        BOOL_TYPE,
        STRING_TYPE,
        TRUE,
        FALSE,
        LPAR,
        RPAR,
        LBRACE,
        RBRACE,
        COMMA,
        COLON,
        SEMICOLON,
        ASSIGN,
        DOT,
        BANG,
        EQ,
        NE,
        LE,
        GE,
        LT,
        GT,
        MUL,
        DIV,
        REM,
        ADD,
        SUB,
        AND,
        OR,
        NAME,
        INT,
        NAT,
    ]
}
