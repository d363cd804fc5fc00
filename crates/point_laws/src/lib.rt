//! Each reply of a cutting room but `bad` and `memory` names its point in the journal, and that can be read off it.
//!
//! The main contract is that of [`replies_name_their_points`]. It is a law, with nothing to run.
#![tactic(auto)]

mod laws;

pub use laws::replies_name_their_points;
