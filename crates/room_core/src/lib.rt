//! What a room can keep: an object of parts that calls change, its history, and the machine of many stations. Nothing
//! here knows what a part is. [`PartObject`] says by its clauses and laws what an object promises.
//!
//! [`laws::serial_law`] is the main contract: whatever stations take, commit and give back comes to one legal serial
//! history, and what a station holds no other changes.
#![tactic(auto)]

mod entry;
pub mod laws;
mod object;

pub use entry::Entry;
pub use object::PartObject;
pub use out_of_memory::{Fault, Memory};
