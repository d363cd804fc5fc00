//! The commands of edit decision lists: the list of a cut at a point of a journal, the tape of a list, and the document of
//! a list.
//!
//! The main contracts are those of [`list_cut`], whose list, read again, shows what the cut shows, of [`play_list`], and of
//! [`import_file`], whose document shows what the list's tape shows, and opens as the same cut.
#![tactic(auto)]

mod countings;
mod cuts;
mod fades;
mod imports;
mod points;
mod tapes;

pub use countings::event_counted_otherwise;
pub use fades::{HidingFades, hiding_fades};
pub use imports::import_file;
pub use points::{CutPlace, list_cut};
pub use tapes::play_list;
