//! The journal of a cutting room as text: written, and read back. So is the reply that tells one entry of it.
//!
//! The main contract is that of `read_journal`: a text is read as exactly the entries whose text it is, or refused by its
//! first fault. What `journal_text` writes is short enough to be read: the law `lines_of_entries_fit_a_line`.
#![tactic(auto)]

mod journal;
mod journal_fault;
mod journal_reading;
mod laws;
mod news_reply;

pub use composables::Memory;
pub use journal::{
    MAX_ENTRY_LINE, MAX_JOURNAL_TEXT, entry_text, journal_room, journal_text, journal_text_into,
};
pub use journal_fault::{EntryFault, JournalCode, JournalFault};
pub use journal_reading::{LAST_STATION, MAX_JOURNAL, read_entry, read_journal};
pub use laws::{
    journals_have_one_reading, limits_are_these, lines_of_entries_fit_a_line, news_is_read_again,
};
pub use news_reply::{News, NewsFault, news_text, read_news};
pub use room_core::Entry;
pub use take_back::{Deed, Step};
