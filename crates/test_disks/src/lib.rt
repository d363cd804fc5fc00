//! Tests of disks, kept files and receipts: what each call of a disk answers, what a kept file holds after each call
//! that fails, what each image opens with that a crash may leave, and receipts for counts. What there is besides tests is
//! [`image`], what a crash may leave.
#![tactic(auto)]

#[cfg(test)]
mod appends;
#[cfg(test)]
mod batches;
#[cfg(test)]
mod crashes;
#[cfg(test)]
mod disks;
mod images;
#[cfg(test)]
mod openings;
#[cfg(test)]
mod receipts;
#[cfg(test)]
mod texts;
#[cfg(test)]
mod zeros;

pub use images::{Torn, image, opened};
