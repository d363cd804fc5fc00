//! A reply of a cutting room is one line, whatever it answers.
//!
//! The main contract is that of [`replies_are_one_line`]. It is a law, with nothing to run.
#![tactic(auto)]

mod laws;

pub use laws::replies_are_one_line;
