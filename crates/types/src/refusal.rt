// Why an input is refused or a run stops, and the number that 01 and 02 give each: an enum in the code, a number in what callers are answered.
ghost use Rattle.std.specs.Prelude.{◌≡◌};
ghost use Rattle.types.specs.Refusals.{number};

#[derive(Clone, Copy, PartialEq, Eq, Debug)]
pub enum Refusal {
    // 01, 'Numbers from the input': of a program image, of its stream, of the program
    ProgramLength = 1,
    BlockSums = 2,
    BlockLayout = 3,
    WrongEnd = 4,
    WrongByte = 5,
    OverLimits = 6,
    WrongNames = 7,
    WrongTypes = 8,
    // of a table image, of its stream
    TableLength = 9,
    TableBlock = 10,
    TableEnd = 11,
    TableValue = 12,
    // of what is lent
    NoRoom = 13,
    ManyTurns = 14,
    // 02: of program text
    NoToken = 15,
    NoDerivation = 16,
    NoProgram = 17,
    // of a paused image, of the state in it
    PausedStream = 18,
    PausedState = 19,
    // of a program with an iterator
    IteratorConstructs = 20,
    // of what a role asks for
    Absent = 21,
    NoRight = 22,
    // of columns, of what is counted
    WrongColumns = 23,
    ManyCommands = 24,
    // 01, 'Numbers from the state'
    OutOfTurns = 33,
    Full = 34,
    Exceeded = 35,
}

impl From<Refusal> for u8 {
    ghost from_gives = { λ r n. n ≡ number r };

    fn from(refusal: Refusal) -> u8 {
        refusal as u8
    }
}
