//! The command `audit`: whether a journal explains what was recorded of the stations of a room, the lines that each sent
//! and the replies that it got.
//!
//! The main contract is that of [`audit`]: what is recorded is legal, in the sense of the transcripts that a room's
//! stations have, exactly where the command says so; else it names the first reply, line or entry that is not explained.
#![tactic(auto)]

mod auditing;
mod ending;
pub mod laws;
mod order;
mod reading;
mod record_names;
mod records;
mod refusal;
mod sessions;
mod stations;
mod tells;

pub use auditing::audit;
pub use record_names::{MAX_LINES, MAX_REPLIES, MAX_STATIONS};
pub use refusal::{AuditCode, AuditRefusal};
