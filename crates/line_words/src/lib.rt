//! Lines, words and numbers of a text.
//!
//! A [`LineReader`] takes a text in whatever pieces it comes and tells each line that ends. What it tells are the lines of
//! the joined pieces: each call of `feed` tells the lines that end in the bytes that it took, and
//! `lines_are_the_same_in_any_pieces` says that these are the lines of the text, however it was cut. [`next_word`] goes
//! over the words of a line, and [`number`] and [`signed`] read a word as a number, of any count of digits. [`Words`] is a
//! list of words; it alone is given an allocator. The main contract is that of [`lines_are_the_same_in_any_pieces`].
#![tactic(auto)]

mod buffer;
mod laws;
mod line;
mod list;
mod next;
mod numbers;
mod reader;

pub use laws::{
    lines_are_the_same_in_any_pieces, lines_stand_between_line_feeds,
    one_carriage_return_is_dropped, the_limit_is_this, words_stand_between_blanks,
    written_numbers_are_read,
};
pub use line::{Fed, LineEnd};
pub use list::Words;
pub use next::next_word;
pub use numbers::{NumberFault, number, signed};
pub use out_of_memory::Memory;
pub use reader::LineReader;

/// The most bytes of a line. Its line feed is not counted, and a carriage return before that is.
pub const MAX_LINE: usize = 1024;
