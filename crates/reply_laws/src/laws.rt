// No reply has a line feed in it.
ghost use Rattle.std.specs.Prelude.{ℕ, List, Option, codes, decimal, ◌++◌};
ghost use Rattle.composables.specs.TrackState.{TrackState};
ghost use Rattle.composables.specs.declared.media.Table.{Table};
ghost use Rattle.cut_steps.specs.CutSteps.{CutStep};
ghost use Rattle.journal_text.specs.JournalFaults.{HasNoLineFeed};
ghost use Rattle.journal_text.specs.NewsTexts.{news_text_of};
ghost use Rattle.otio_text.specs.Documents.{timeline_text};
ghost use Rattle.protocol_parts.specs.declared.line_fault.LineFault.{LineFault};
ghost use Rattle.reply_text.specs.Replies.{EditAnswer, answer_text_of, fault_of};
ghost use Rattle.reply_text.specs.Sights.{TrackSight, sight_text_of};
ghost use Rattle.room_core.specs.declared.entry.Entry.{Entry};
ghost use Rattle.timecode12.specs.Numbers.{Counted};

/// No reply has a line feed in it, so each reply is one line, and a reader of lines finds as many lines as replies: those
/// to edits, to questions, to lines that are none of the table, the news of an entry, the point, a document, and that a
/// document is too long or that there are fewer entries. What names of reels have in them is written by its code in a
/// document.
pub fn replies_are_one_line()
    ensures edits { (answer : EditAnswer) → HasNoLineFeed (answer_text_of answer) }
    ensures questions { (sight : TrackSight) → HasNoLineFeed (sight_text_of sight) }
    ensures faults { (fault : LineFault) → HasNoLineFeed (fault_of fault) }
    ensures news { (place length : ℕ) (entry : Option (Entry CutStep))
        → HasNoLineFeed (news_text_of place length entry) }

    ensures documents { (n start : ℕ) (table : Table) (tracks : List TrackState)
        (counting : Counted) → HasNoLineFeed (codes "otio " ++ decimal n ++ codes " "
        ++ timeline_text table tracks counting start) }
    ensures too_long { (n : ℕ) → HasNoLineFeed (codes "no " ++ decimal n ++ codes " V4") }
    ensures past_end { (n : ℕ) → HasNoLineFeed (codes "no " ++ decimal n ++ codes " V3") }
    ensures point { (n : ℕ) → HasNoLineFeed (codes "point " ++ decimal n) }
{}
