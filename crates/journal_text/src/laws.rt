// What the journal as text is, whoever writes and reads it.
ghost use Rattle.std.specs.Prelude.{◌≡◌, ◌≤◌};
ghost use Rattle.room_core.specs.History.{most_entries};
ghost use Rattle.protocol_parts.specs.declared.short_text.TheConstants.{MAX_SHORT, MAX_SHORT_LINE};
ghost use Rattle.line_table.specs.declared.parts.TheConstants.{LAST_TRACK};
ghost use Rattle.journal_text.specs.declared.journal.TheConstants.{MAX_ENTRY_LINE, MAX_JOURNAL_TEXT};
ghost use Rattle.journal_text.specs.declared.journal_reading.TheConstants.{LAST_STATION, MAX_JOURNAL};
ghost use Rattle.journal_text.specs.JournalMeanings.{EntriesFitLines, IsOneJournal, HasOneJournalFault, HasNoFault, JournalsFit};
ghost use Rattle.journal_text.specs.NewsTexts.{AreOneNews, NewsFitLines};

/// The text of an entry that can be written is a line of 1 to 479 bytes. So a journal that can be written has a text
/// which is short enough to be read again.
pub fn lines_of_entries_fit_a_line()
    ensures line { EntriesFitLines }
    ensures journal { JournalsFit }
    ensures read { MAX_JOURNAL_TEXT ≤ MAX_JOURNAL }
{}

/// The limits: tracks up to 31 in a line, stations up to 15 and 100,000 entries in a journal, whose text is read up to 64
/// MiB, 480 bytes in the line of an entry and 48,000,029 in the text of a journal that can be written, and short texts of
/// at most 128 bytes, 129 with the line feed.
pub fn limits_are_these()
    ensures track { LAST_TRACK ≡ 31 }
    ensures station { LAST_STATION ≡ 15 }
    ensures entries { most_entries ≡ 100000 }
    ensures journal { MAX_JOURNAL ≡ 67108864 }
    ensures entry_line { MAX_ENTRY_LINE ≡ 480 }
    ensures journal_text { MAX_JOURNAL_TEXT ≡ 48000029 }
    ensures short { MAX_SHORT ≡ 128 }
    ensures short_line { MAX_SHORT_LINE ≡ 129 }
{}

/// A text is that of one journal, or has one fault, and never both.
pub fn journals_have_one_reading()
    ensures one_journal { IsOneJournal }
    ensures one_fault { HasOneJournalFault }
    ensures not_both { HasNoFault }
{}

/// The reply to `news` that tells some news is a line of at most 1,024 bytes, and is read as these and as no others.
pub fn news_is_read_again()
    ensures line { NewsFitLines }
    ensures one_news { AreOneNews }
{}
