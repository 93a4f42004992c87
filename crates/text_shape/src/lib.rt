// What the code keeps of a derivation in progress, and the role that a derivation gives each token (02 §1, §2): definitions and laws stand in specs/, the bytes
// of roles and the codes of states by name in `role` and `state`.
#![tactic(auto)]

pub mod role;
pub mod state;

// What a token does: to a state; to a state, with a place opened; what was opened last takes it; no derivation goes on.
#[derive(Clone, Copy)]
pub enum Act {
    Go(u8),
    Open(u8, u8),
    Below,
    Stop,
}
