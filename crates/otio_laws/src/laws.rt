// What is true of every cut and its text.
ghost use Rattle.otio_laws.specs.Meanings.{LineIsReadAgain, WrittenIsReadAgain, WrittenIsSpelled};
ghost use Rattle.otio_laws.specs.Points.{PointsAreReadAgain, PointsAreSoundCuts};
ghost use Rattle.otio_laws.specs.SoundCuts.{OpeningsAreSoundCuts};

/// What is written of a sound cut is JSON, with at most 64 lists and objects in one another: the grammar spells by it
/// the tree of the cut, places aside.
pub fn what_is_written_is_spelled()
    ensures { WrittenIsSpelled }
{}

/// What is written of a sound cut with a track, if it has at most 32 MiB, is opened at the same counting, as a cut that
/// is the same: the same kinds and start, and on each track the same frames, dissolves and items, where media and nests
/// are compared by what they are, items by the order in which they come, and links are left out.
pub fn a_written_cut_is_read_again()
    ensures { WrittenIsReadAgain }
{}

/// What is written of such a cut, with a line feed after it as a file has it, is opened again in the same way, if the
/// two have at most 32 MiB.
pub fn a_written_line_is_read_again()
    ensures { LineIsReadAgain }
{}

/// What a document describes, and what a plain room begins with, is a sound cut. A sound cut may besides have links,
/// and items of any numbers, as a cut has after some edits.
pub fn a_sound_opening_is_a_sound_cut()
    ensures { OpeningsAreSoundCuts }
{}

/// At every point of a legal history of such an opening, after its first n entries for each n, the cut is a sound one;
/// and what is written of it, as of each sound cut with a track that takes 32 MiB or less, is read again as the same
/// cut, if the names of the opening's reels are UTF-8.
pub fn a_cut_at_any_point_is_read_again()
    ensures sound { PointsAreSoundCuts }
    ensures again { PointsAreReadAgain }
{}
