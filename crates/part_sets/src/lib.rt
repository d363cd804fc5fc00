//! Sets of parts as numbers of 32 bits, and the parts that they name.
//!
//! [`laws::sets_are_their_members`] is the main contract: a set is that of its members, and ascending numbers are the
//! members of their set. [`has`] tests one number.
#![tactic(auto)]

pub mod laws;
mod members;

pub use members::{first_absent, has};
