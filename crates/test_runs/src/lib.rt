//! The program's call over objects in memory, for tests: its words, what the input gives, which calls fail, and the status
//! and the output. [`run_over`], [`served_over`] and [`stored_over`] are the call itself.
#![tactic(auto)]

mod calling;

pub use calling::{Stored, ended, ended_over, run_over, served_over, stored_over, words_in};
