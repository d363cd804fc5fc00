//! The numbers of the limits, and what the cut of a room is at any point of its history.
ghost use Rattle.std.specs.Prelude.{◌≡◌};
ghost use Rattle.cut_server.specs.Points.{RoomsAreReadAgain, RoomsAreSoundCuts};
ghost use Rattle.command_words.specs.Commands.{least_tracks, most_tracks, most_reels};
ghost use Rattle.command_files.specs.declared.documents.TheConstants.{MAX_DOCUMENT};
ghost use Rattle.journal_text.specs.declared.journal_reading.TheConstants.{MAX_JOURNAL};
ghost use Rattle.edl_read.specs.declared.list.TheConstants.{MAX_LIST};

/// The limits of a command: 32 MiB of a document or a list, 64 MiB of a journal, 1 to 32 tracks and up to 999 reels.
pub fn limits_are_these()
    ensures document { MAX_DOCUMENT ≡ 33554432 }
    ensures journal { MAX_JOURNAL ≡ 67108864 }
    ensures list { MAX_LIST ≡ 33554432 }
    ensures least_tracks { least_tracks ≡ 1 }
    ensures most_tracks { most_tracks ≡ 32 }
    ensures reels { most_reels ≡ 999 }
{}

/// At every point of a room's history, edits taken back among it, the cut is a sound one; and what is written of it, if it
/// has at most 32 MiB, is read again as the same cut, if the names of the room's reels are UTF-8.
pub fn a_room_at_any_point_is_read_again()
    ensures sound { RoomsAreSoundCuts }
    ensures again { RoomsAreReadAgain }
{}
