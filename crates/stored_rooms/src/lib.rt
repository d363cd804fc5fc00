//! Rooms of many stations whose journal is kept on a disk as it grows. The room goes on from the kept file that is there:
//! its entries are made again, and then no reply is put before the file holds the entries that it tells of.
//!
//! [`store_opened`] is the main contract: one history, which begins with the entries that the file had, explains every
//! reply of every station; and whatever a crash leaves once the sessions have ended, the file has all of it that anybody
//! was told of.
#![tactic(auto)]

mod closing;
mod ending;
mod laws;
mod opening;
mod refusal;
mod remaking;
mod serving;
mod stored;

pub use laws::accepted_files_are_not_refused;
pub use refusal::KeptRefusal;
pub use stored::store_opened;
