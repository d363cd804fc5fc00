//! The records of a kept file as the first entries of a room, or the first of them that is refused.
//! Nothing here opens or writes a file.
//!
//! [`make_again`] is the main contract: a room that has just been opened goes on from these
//! entries, and the pass of each station knows its own, or the first record that fails is told
//! exactly. [`record_entry`] takes one record as the entry that comes next, or says why not.
//! [`records_have_one_reading`] says that the records of a file are one list of entries or have one
//! fault, and never both.
#![tactic(auto)]

mod comparing;
mod fault;
mod held_pass;
mod kept_room;
mod lasts;
mod laws;
mod records;
mod remaking;
mod stop;

pub use fault::{KeptFault, RecordCode, RecordFault};
pub use kept_room::{Remade, make_again};
pub use lasts::Lasts;
pub use laws::records_have_one_reading;
pub use records::{LAST_NUMBER, record_entry};
