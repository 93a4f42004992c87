// The codes of the schedule laid flat (`layout/specs/Codes.antt`): those of starts lie below FIX.

// A Fix begins; the schedule ends; a Fix goes round to its items at the place that is added to this number.
pub const FIX: usize = 1024;

pub const END: usize = 1025;

pub const ROUND: usize = 2048;
