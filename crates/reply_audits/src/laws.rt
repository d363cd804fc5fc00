//! What holds of all recorded sessions.
ghost use Rattle.std.specs.Prelude.{ℕ, List};
ghost use Rattle.cut_steps.specs.CutSteps.{KeptTrack};
ghost use Rattle.line_words.specs.Lines.{Line};
ghost use Rattle.otio_json.specs.declared.opening.Opening.{Opening};
ghost use Rattle.reply_audits.specs.Sessions.{CutHaveTranscripts, CutTranscriptsAreExplained, ExplainedHaveTranscripts, GoingsAreRows, IsKnownThere, OwnEntriesAreThere, RowsAreGoings, TranscriptsAreExplained};
ghost use Rattle.station_sessions.specs.Rooms.{History, Setting};

/// What is known of the reply to a line is known by the line's number, and an entry that it tells of is the station's.
/// Replies that are explained one after another are rows of a transcript, and the other way round.
pub fn rows_are_goings()
    ensures known { (setting : Setting) (opening : List KeptTrack) (h : History) (station : ℕ)
        (lines : List Line) (replies : List (List ℕ))
        → IsKnownThere setting opening h station lines replies }
    ensures own { (setting : Setting) (opening : List KeptTrack) (h : History) (station : ℕ)
        (lines : List Line) (replies : List (List ℕ))
        → OwnEntriesAreThere setting opening h station lines replies }
    ensures goings { (setting : Setting) (opening : List KeptTrack) (h : History) (station : ℕ)
        (lines : List Line) (replies : List (List ℕ))
        → GoingsAreRows setting opening h station lines replies }
    ensures rows { (setting : Setting) (opening : List KeptTrack) (h : History) (station : ℕ)
        (lines : List Line) (replies : List (List ℕ))
        → RowsAreGoings setting opening h station lines replies }
{}

/// A session is explained exactly where it has a transcript of the room; one that was cut short, exactly where its replies
/// have one, and the entries that they do not tell of were left.
pub fn sessions_are_transcripts()
    ensures explained { (o : Opening) (h : History) (station : ℕ)
        (lines : List Line) (replies : List (List ℕ))
        → ExplainedHaveTranscripts o h station lines replies }
    ensures transcripts { (o : Opening) (h : History) (station : ℕ)
        (lines : List Line) (replies : List (List ℕ))
        → TranscriptsAreExplained o h station lines replies }
    ensures cut { (o : Opening) (h : History) (station : ℕ)
        (lines : List Line) (replies : List (List ℕ))
        → CutHaveTranscripts o h station lines replies }
    ensures cut_transcripts { (o : Opening) (h : History) (station : ℕ)
        (lines : List Line) (replies : List (List ℕ))
        → CutTranscriptsAreExplained o h station lines replies }
{}
