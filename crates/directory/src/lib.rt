// The step directory (01, 'Names, types, commands'). What it holds, and how it stands in lent memory, is defined in specs/.
#![tactic(auto)]

pub mod rows;

// A step: its struct and name, the place of its first command in the list, and how many it has.
#[derive(Clone, Copy)]
pub struct Row {
    pub structure: u16,
    pub name: u16,
    pub start: u16,
    pub size: u16,
}
