//! The number of each station's last line in a kept file: where its lines go on when a room starts again.
//!
//! The main contract is that of [`last_numbers`]: they are told by the records alone. The law
//! [`last_numbers_are_those_of_entries`] says that they are the numbers of the stations' last entries, where the records are
//! those of entries.
#![tactic(auto)]

mod laws;
mod line;
mod numbers;

pub use laws::last_numbers_are_those_of_entries;
pub use numbers::{STATIONS, last_numbers};
