//! What is said at the door of a room whose seats belong to a crew: the crew's file, the first line of a connection, and the
//! word that names both the file and the address. [`crew_of`] reads the file, or tells its first fault by its line;
//! [`Crew::station`] says whose seat a name and a key are.
#![tactic(auto)]

mod address;
mod crew;
mod entry;
mod laws;
mod words;

pub use address::address_in;
pub use crew::{Crew, CrewFault, MOST_BYTES, crew_of};
pub use entry::{Entry, entry_in};
pub use laws::each_member_has_a_name_of_its_own;
