// The definitions and laws of the program stream stand in specs/, the bytes of its forms by name in `form`.
#![tactic(auto)]

pub mod form;
