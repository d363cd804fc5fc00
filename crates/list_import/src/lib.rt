//! An edit decision list as the opening of a room: a track for each of its channels.
//!
//! The main contract is that of [`import_list`]: it makes the opening that the list is, or tells the first reason why there
//! is none; and what the opening shows is what the list's tape shows. Laws say it of every such opening
//! (`an_import_shows_its_tape`), that it is sound (`an_import_is_sound`), and that a list has one only
//! (`a_list_has_one_opening`).
#![tactic(auto)]

mod fault;
mod importing;
mod laws;
mod laying;
mod naming;
mod refusing;
mod shots;
mod tracks;

pub use fault::{ImportCode, ImportFault};
pub use importing::import_list;
pub use laws::{a_list_has_one_opening, an_import_is_sound, an_import_shows_its_tape};
pub use out_of_memory::Memory;
pub use shots::Shot;
