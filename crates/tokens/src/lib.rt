// Tokens of program text (02 §1): definitions and laws stand in specs/, the kinds of tokens by name in `kind`.
#![tactic(auto)]

pub mod kind;

// What stands at a place: the kind of a token, or 0 for a gap, with the count of its bytes after the first; `None` where no part of a text begins.
pub type Spot = Option<(u8, usize)>;
