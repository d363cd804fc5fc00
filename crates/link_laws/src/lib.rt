//! Items that a link ties together keep one offset, on all tracks of a room at once.
//!
//! The main contract is that of `together_law`: every call keeps it. `histories_law` has it of a whole history, and that
//! link numbers do not run out in one. They are laws, with nothing to run.
#![tactic(auto)]

mod laws;

pub use laws::{given_law, histories_law, together_law, wholes_law};
