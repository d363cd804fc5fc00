//! Edits and questions as a station sends them, and what a question is answered, as data.
//!
//! The main contract is that of [`copy_call`]: a copy is equal.
#![tactic(auto)]

mod asks;

pub use asks::{Ask, AskRefusal, Call, Seen, copy_call};
