//! The edits that put items into tracks and take them out of them.
//!
//! The main contract is that each call leaves on its tracks, and answers, exactly what its meaning says as a list of
//! cells; after a refusal, and out of memory, all tracks are as they were.
#![tactic(auto)]

mod filling;
mod inserting;
mod overwriting;
mod removing;
mod sources;

pub use filling::fill;
pub use inserting::{extract, insert};
pub use overwriting::overwrite;
pub use removing::{remove, slice};
