//! One call on the tracks that it names: every edit, and every question to a track.
//!
//! The main contract is that `Editor` is a `PartObject`: what a call leaves on its tracks and what it answers is a
//! function of the table, the named tracks and the call alone, and all tracks of a history have room for one edit more.
#![tactic(auto)]

mod editor;
mod edits;
mod laws;
mod naming;
mod sights;

pub use edit_calls::{Ask, AskRefusal, Call, Seen};
pub use editor::Editor;
pub use laws::{good_law, kinds_law, together_law};
