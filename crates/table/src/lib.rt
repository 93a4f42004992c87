// The sizes of a table stream in bytes (`specs/Sizes.antt`): N, what stands before the values of a record, a value, and the longest record.
// The definitions and laws of tables stand in specs/.
#![tactic(auto)]

pub const COUNT_BYTES: usize = 2;

pub const HEAD_BYTES: usize = 1;

pub const VALUE_BYTES: usize = 4;

pub const MOST_RECORD: usize = HEAD_BYTES + VALUE_BYTES * types::MAX_PARAMS;
