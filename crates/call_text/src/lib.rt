//! Lines and replies of a cutting room, and its journal as text: what a client of a room needs, by one name. Lines and
//! calls are those of `line_table`, journals those of `journal_text`, replies those of `reply_text`. Nothing is proved here.
#![tactic(auto)]

pub use journal_text::{
    EntryFault, JournalCode, JournalFault, LAST_STATION, MAX_ENTRY_LINE, MAX_JOURNAL,
    MAX_JOURNAL_TEXT, News, NewsFault, entry_text, journal_room, journal_text, journal_text_into,
    journals_have_one_reading, limits_are_these, lines_of_entries_fit_a_line, news_is_read_again,
    news_text, read_entry, read_journal, read_news,
};
pub use line_table::{
    Deed, FirstWord, LAST_TRACK, Line, Memory, Step, call_text, labels_name_places,
    lines_are_those_of_the_table, lines_have_one_meaning, read_line, written_calls_are_read,
};
pub use reply_text::{
    CutCall, CutObject, CutPart, LineFault, MAX_SHORT, MAX_SHORT_LINE, Short, answer_text,
    fault_text, items_text, point_text, sight_text,
};
pub use room_core::Entry;
