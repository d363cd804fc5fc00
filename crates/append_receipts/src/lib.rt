//! Receipts for what a lock hides. A clerk, who stays behind a lock, counts the records of a kept file and the appends
//! that failed; each who comes asks for a receipt, which has these two numbers, and takes it along. `Receipts::settle`
//! takes one back, at any time, and tells that its numbers are at most the clerk's: both counts only rise, and the
//! receipt is of this clerk. Nothing of that is checked at run time; the rule of a table of two words keeps it.
#![tactic(auto)]

mod receipts;
mod view;

pub use receipts::{Clerk, MOST_KEPT, Receipt, Receipts};
