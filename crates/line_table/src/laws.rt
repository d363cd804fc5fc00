// What lines and calls as text are, whoever writes and reads them.
ghost use Rattle.line_table.specs.Meanings.{ReadAsSpelled, RefusedAsBad, HasMeaning, IsOneLine, HasOneFault, IsNotBoth, LabelsNamePlaces, WrittenIsRead};

/// What is read of a line is spelled there, word by word, and what is spelled there is read. A line that is refused is
/// none of the table for the fault that is told, and one that is none of the table is refused for that fault.
pub fn lines_are_those_of_the_table()
    ensures read { ReadAsSpelled }
    ensures refused { RefusedAsBad }
{}

/// A line has exactly one meaning: it is one line of the table, or it has one fault.
pub fn lines_have_one_meaning()
    ensures some { HasMeaning }
    ensures one_line { IsOneLine }
    ensures one_fault { HasOneFault }
    ensures not_both { IsNotBoth }
{}

/// A word that is a label names the place of that label, counted from the start, and no other word names one.
pub fn labels_name_places()
    ensures { LabelsNamePlaces }
{}

/// The text of a step that a line can name is read again as that step of station 0, whatever labels name.
pub fn written_calls_are_read()
    ensures { WrittenIsRead }
{}
