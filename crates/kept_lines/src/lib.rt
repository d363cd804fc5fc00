//! How an entry of a cutting room reads in its kept file: as its line in the text of a journal.
//!
//! The main contract is that of [`CutLines`]: each entry of a legal history has a line of 1 to 1,024 bytes without a line
//! feed, whatever its station and its number. The law [`lines_of_histories_fit`] carries it: a call that is not refused
//! names tracks from 0 to 31, and a link that applies has at most one item for each.
#![tactic(auto)]

mod cut_lines;
mod laws;
mod widths;

pub use cut_lines::CutLines;
pub use laws::lines_of_histories_fit;
