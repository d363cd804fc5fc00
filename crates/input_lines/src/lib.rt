//! The lines of an input, in whatever pieces it comes, each taken as soon as it has ended by whatever takes lines.
//!
//! The main contract is that of [`take_lines`]: all lines were taken, or those before the one at which the taker stopped,
//! and nothing was read after the piece in which that one ended.
#![tactic(auto)]

mod taking;

pub use line_words::LineEnd;
pub use taking::{InputStop, TakesLines, take_lines};
