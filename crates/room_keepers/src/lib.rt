//! What keeps a room's journal as it grows, so that no station is told of an entry that a stop could lose. A station asks
//! for the entries before a point to be kept, and is told when they are.
//!
//! [`Keeping`] is the main contract. [`KeepsNothing`] is for rooms whose journal is kept at their end alone.
#![tactic(auto)]

mod fault;
mod keeping;
mod nothing;

pub use fault::KeepFault;
pub use keeping::Keeping;
pub use nothing::{KeepsNothing, Nothing};
