// The kind of each command in its place of the lent list: what `specs/CommandKinds.antt` names.
ghost use Rattle.std.specs.Prelude.{◌≡◌, [], ◌∷◌};
ghost use Rattle.commands.specs.CommandKinds.{push_kind, this_kind, rd_kind, wr_kind, cons_kind, if_kind, not_kind, op_kind};
ghost use Rattle.commands.specs.KindCodes.{kind_code, Names};

// What a command does.
#[derive(Clone, Copy, PartialEq, Eq, Debug)]
pub enum Kind {
    Push = 1,
    This = 2,
    Rd = 3,
    Wr = 4,
    Cons = 5,
    If = 6,
    Not = 7,
    Op = 8,
}

impl From<Kind> for u64 {
    ghost from_gives = { λ kind n. n ≡ kind_code kind };

    fn from(kind: Kind) -> u64 {
        kind as u64
    }
}

// A code that names no kind of command.
#[derive(Clone, Copy, PartialEq, Eq, Debug)]
pub struct UnknownKind(pub u64);

impl TryFrom<u64> for Kind {
    type Error = UnknownKind;

    ghost try_from_gives = { Names };

    fn try_from(code: u64) -> Result<Kind, UnknownKind> {
        match code {
            PUSH => Ok(Kind::Push),
            THIS => Ok(Kind::This),
            RD => Ok(Kind::Rd),
            WR => Ok(Kind::Wr),
            CONS => Ok(Kind::Cons),
            IF => Ok(Kind::If),
            NOT => Ok(Kind::Not),
            OP => Ok(Kind::Op),
            _ => Err(UnknownKind(code)),
        }
    }
}

pub const PUSH: u64 = Kind::Push as u64;

pub const THIS: u64 = Kind::This as u64;

pub const RD: u64 = Kind::Rd as u64;

pub const WR: u64 = Kind::Wr as u64;

pub const CONS: u64 = Kind::Cons as u64;

pub const IF: u64 = Kind::If as u64;

pub const NOT: u64 = Kind::Not as u64;

pub const OP: u64 = Kind::Op as u64;

// Each of them, in order, so that a contract can tie each constant to its definition.
pub fn all_kinds() -> [u64; 8]
    ensures { result ≡ (push_kind ∷ this_kind ∷ rd_kind ∷ wr_kind ∷ cons_kind ∷ if_kind ∷ not_kind ∷ op_kind ∷ []) }
{
    [PUSH, THIS, RD, WR, CONS, IF, NOT, OP]
}
