//! What each code and each exit status of the program means, and what to do: the texts of the pages, in tables.
//!
//! The main contract is that of [`code_text`]: a code has the text of its row, and what has no row has none.
#![tactic(auto)]

pub mod audits;
mod codes;
pub mod documents;
pub mod journals;
pub mod lists;
pub mod replies;
pub mod statuses;

pub use codes::code_text;
