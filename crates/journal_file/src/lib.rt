//! A journal that outlives a stop: a file of records, each on the disk before it is acknowledged. `JournalFile::open`
//! gives the records of a file, or says where it is damaged. `JournalFile::append` adds one: a crash at any moment
//! leaves the records from before the call, or these and the new one, and once it has answered `Ok` every crash leaves
//! the new one. `JournalFile::append_batch` adds many lines at once, all or none, and syncs no more often.
//! `JournalFile::make_room` puts zeros after the records, which do not count, so that appends lie within the file.
#![tactic(auto)]

mod batch;
mod faults;
mod held;
mod journal_file;
pub mod laws;
mod line;
mod opening;
mod pending;
mod reading;
mod record;
mod stage;
mod syncing;
mod zeros;

pub use batch::{Batch, MOST_LINES};
pub use faults::OpenFault;
pub use journal_file::{JournalFile, MOST_RECORDS};
pub use opening::MOST_BYTES;
pub use reading::{MOST_LINE, is_line};
pub use record::Record;
