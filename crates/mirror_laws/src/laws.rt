// What comes of a stream that is the replies of a room.
ghost use Rattle.std.specs.Prelude.{◌≡◌, ◌<◌, ◌^◌, All, List, Some, ℕ, length};
ghost use Rattle.command_files.specs.Ports.{InputTold};
ghost use Rattle.cut_steps.specs.CutSteps.{CutStep};
ghost use Rattle.edit_apply.specs.RoomTracks.{IsOpening};
ghost use Rattle.follow_command.specs.Follows.{FirstRefused, IsStreamOf};
ghost use Rattle.follow_command.specs.Fronts.{IsFront};
ghost use Rattle.follow_command.specs.Goes.{first_mirror};
ghost use Rattle.follow_command.specs.declared.refusal.StreamRefusal.{StreamRefusal};
ghost use Rattle.follow_command.specs.declared.refusal.StreamRefusal.TheVariants.{Gap};
ghost use Rattle.journal_text.specs.JournalFaults.{HasNoLineFeed};
ghost use Rattle.journal_text.specs.Journals.{HasLine};
ghost use Rattle.line_words.specs.Lines.{Line};
ghost use Rattle.mirror_laws.specs.Told.{IsReplyOf, sent_replies};
ghost use Rattle.otio_json.specs.declared.opening.Opening.{Opening};
ghost use Rattle.room_core.specs.declared.entry.Entry.{Entry};
ghost use Rattle.station_sessions.specs.Rooms.{History, IsLegalIn, RoomTranscript};
ghost use Rattle.station_sessions.specs.Transcript.{Origin, sent};

/// All that a station of a room is told are replies of the room's history, and each of them is one line.
pub fn stations_are_told_lines()
    ensures replies { (o : Opening) (h : History) (from : Origin) (station : ℕ)
        (lines : List Line) (replies : List (List ℕ))
        → RoomTranscript o h from station lines replies → All (IsReplyOf h) replies }
    ensures lines { (o : Opening) (h : History) (from : Origin) (station : ℕ)
        (lines : List Line) (replies : List (List ℕ))
        → RoomTranscript o h from station lines replies → All HasNoLineFeed replies }
{}

/// Where a stream is replies of a room with this history, each sent whole with its line feed, what is followed of it is a
/// front of the history. The replies may be of any kinds, in any order: news of the room's entries, and answers to edits,
/// questions and all other lines. None of these others is taken for news, whatever the names of reels in documents are. So
/// it is of the replies that one station of the room was sent.
pub fn mirrors_are_fronts_of_their_room()
    ensures replies { (h entries : List (Entry CutStep)) (replies : List (List ℕ))
        → All HasLine h → length h < 2 ^ 32 → All (IsReplyOf h) replies
        → IsStreamOf (sent_replies replies) entries → IsFront entries h }
    ensures station { (o : Opening) (h : History) (from : Origin) (station : ℕ)
        (lines : List Line) (replies : List (List ℕ)) (entries : List (Entry CutStep))
        → IsLegalIn o h → All HasLine h → RoomTranscript o h from station lines replies
        → IsStreamOf (sent replies) entries → IsFront entries h }
{}

/// Nothing but a gap is refused in the replies that one station of a room was sent, where they are whole: news at a place
/// past the end of those that came before.
pub fn only_gaps_are_refused()
    ensures { (o : Opening) (h : History) (from : Origin) (station : ℕ) (lines : List Line)
        (replies : List (List ℕ)) (before after : InputTold) (refusal : StreamRefusal)
        → IsOpening o.table o.tracks → IsLegalIn o h → All HasLine h
        → RoomTranscript o h from station lines replies → before.left ≡ Some (sent replies)
        → FirstRefused (first_mirror o) refusal before after → (point : ℕ) × (refusal ≡ Gap point) }
{}
