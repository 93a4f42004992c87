// Every number that 01 and 02 give a refused input and a run that stops, in order.
ghost use Rattle.std.specs.Prelude.{◌≡◌};
ghost use Rattle.types.specs.Constants.{numbers};

use crate::refusal::Refusal;

// So that a contract ties the number of each refusal to its definition.
pub fn all_numbers() -> [u8; 27]
    ensures { result ≡ numbers }
{
    [
        Refusal::ProgramLength as u8,
        Refusal::BlockSums as u8,
        Refusal::BlockLayout as u8,
        Refusal::WrongEnd as u8,
        Refusal::WrongByte as u8,
        Refusal::OverLimits as u8,
        Refusal::WrongNames as u8,
        Refusal::WrongTypes as u8,
        Refusal::TableLength as u8,
        Refusal::TableBlock as u8,
        Refusal::TableEnd as u8,
        Refusal::TableValue as u8,
        Refusal::NoRoom as u8,
        Refusal::ManyTurns as u8,
        Refusal::NoToken as u8,
        Refusal::NoDerivation as u8,
        Refusal::NoProgram as u8,
        Refusal::PausedStream as u8,
        Refusal::PausedState as u8,
        Refusal::IteratorConstructs as u8,
        Refusal::Absent as u8,
        Refusal::NoRight as u8,
        Refusal::WrongColumns as u8,
        Refusal::ManyCommands as u8,
        Refusal::OutOfTurns as u8,
        Refusal::Full as u8,
        Refusal::Exceeded as u8,
    ]
}
