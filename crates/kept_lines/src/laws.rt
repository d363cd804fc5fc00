// What the lines of entries are, whoever writes them.
ghost use Rattle.kept_lines.specs.Lines.{DoneStepsFit, EnteredLinesFit};

/// Steps and entries whose numbers have 32 bits: the text of a step that is done on tracks of a room has at most 454 bytes,
/// none of them a line feed, and that of an entry in a legal history of a room is a line of a kept file.
pub fn lines_of_histories_fit()
    ensures steps { DoneStepsFit }
    ensures entries { EnteredLinesFit }
{}
