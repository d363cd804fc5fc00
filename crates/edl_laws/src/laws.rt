// What is true of every list that is written.
ghost use Rattle.edl_laws.specs.Meanings.{EventsPlayAsTheirCut, NamedAlikeIsOne, WrittenIsReadAgain, WrittenListsRoundTrip};

/// The text that is written of the events of a cut is read again, at the rate of its counting, as these events: each
/// with the line that it ends on, its reels by their names, and its record times from the start on.
pub fn a_written_list_is_read_again()
    ensures { WrittenIsReadAgain }
{}

/// The tape of these events shows what the cut shows: on each channel every frame and each mix with its weight, by the
/// names of the reels, and dark before and after. Since no two reels have one name, and none has black's, names can be
/// taken back.
pub fn a_list_plays_as_its_cut()
    ensures plays { EventsPlayAsTheirCut }
    ensures one { NamedAlikeIsOne }
{}

/// What is written of a cut makes the round trip: it is short enough to be read, and read at the rate of its counting
/// it gives a list whose tape, with the names taken back and the start subtracted, is what the cut shows.
pub fn a_written_list_makes_the_round_trip()
    ensures { WrittenListsRoundTrip }
{}
