// The definitions and laws of names, types, commands and depth stand in specs/, the kinds of commands by name in `kind`.
#![tactic(auto)]

pub mod kind;
