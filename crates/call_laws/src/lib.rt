//! What calls and steps that compare as equal are, whoever compares them.
//!
//! The main contract is that of [`equal_calls_are_one`]. It is a law, with nothing to run.
#![tactic(auto)]

mod laws;

pub use laws::{equal_calls_are_one, equal_steps_are_one};
