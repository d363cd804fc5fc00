//! The page of a room, made by tools/page/embed of page/room.html. Change that, and make this again.
//!
//! The main contract is that of [`page_parts`]: its parts are the text of the page, byte by byte. They stand in files by what
//! the page's sections are about.
#![tactic(auto)]

mod cut;
mod edits;
mod hands;
mod markup;
mod page;
mod past;
mod picture;
mod room;
mod seat;
mod style;

pub use page::{PARTS, page_of, page_parts};
