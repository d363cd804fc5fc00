//! Generated sessions: four stations of a plain room with four tracks and one reel, of which each sends the lines of a
//! script that a number stands for, and edits one track alone.
//!
//! The main contract is that of [`put_summary`]: what is put is the summary of the tracks that one station comes to which
//! does the four scripts one after another, whatever the order was in which the stations of the room were served.
#![tactic(auto)]

mod bare;
mod comparing;
mod ending;
mod scripts;
mod summaries;

pub use ending::{TRACKS, made_opening, put_summary};
pub use scripts::script_text;
