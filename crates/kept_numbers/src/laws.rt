// What the numbers that records tell are to the entries of a room.
ghost use Rattle.kept_numbers.specs.Entries.{NumbersOfTaken, NumbersOfWritten};

/// The number that the records of a file tell of a station is that of its last entry, and 0 where it has none: where they
/// are taken as the entries of a room, and where they are the lines of entries that a journal may have.
pub fn last_numbers_are_those_of_entries()
    ensures taken { NumbersOfTaken }
    ensures written { NumbersOfWritten }
{}
