//! A cutting room over any object of parts, for many stations at once: the locks of its parts and its journal. The pass
//! of a station knows how the journal goes on, from answer to answer. Nothing here knows what a part is.
//!
//! [`Room::edit`] is the main contract, by its clause `edited`: it does a call and puts it into the journal, or adds no
//! entry and says why. [`Room::close`] says that the entries of all stations are one legal history.
#![tactic(auto)]

mod answers;
mod committing;
mod keeping;
mod room;

pub use answers::{Answer, Excerpt, Sight};
/// Why there is no cut: why entries were not copied.
pub use edit_journal::CopyFault as CutFault;
pub use keeping::KEPT_EVERY;
pub use room::{Room, RoomBlank};
