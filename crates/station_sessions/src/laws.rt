//! What holds of all histories of a room, and the numbers of the limits.
ghost use Rattle.std.specs.Prelude.{◌≡◌};
ghost use Rattle.room_core.specs.History.{most_entries};
ghost use Rattle.station_sessions.specs.Longer.{TranscriptsStay};
ghost use Rattle.station_sessions.specs.Outside.{most_input, most_read};
ghost use Rattle.station_sessions.specs.Transcript.{most_base};

/// A transcript over a list is one over every legal history that the list begins, and whose entries of this station are
/// those of the list.
pub fn transcripts_stay()
    ensures { TranscriptsStay }
{}

/// The limits of a session: 64 MiB of input, at most 8,192 bytes a read, 100,000 entries of a journal, and lines that are
/// numbered behind at most 4,000,000,000.
pub fn limits_are_these()
    ensures input { most_input ≡ 67108864 }
    ensures read { most_read ≡ 8192 }
    ensures entries { most_entries ≡ 100000 }
    ensures base { most_base ≡ 4000000000 }
{}
