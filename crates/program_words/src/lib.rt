//! The words that the program is called with, and what it says of itself: the arguments as words, the texts of `--help`,
//! of each command and of each code, and the lines on standard error where the status does not say enough.
//!
//! The main contracts are those of [`words_given`], [`Notice::tell`] and [`complaint`].
#![tactic(auto)]

mod arguments;
mod commands;
mod complaints;
mod heard;
mod notice;

pub use arguments::{program_arguments, words_after_the_name, words_given};
pub use commands::{COMMANDS, CommandText, command_named, command_near};
pub use complaints::{Hindrance, Message, complaint, hindrance_text};
pub use heard::{Beginning, Heard, REMEMBERED};
pub use notice::{HELP, NO_WORDS, Notice, VERSION};
