// What a line is.
ghost use Rattle.std.specs.Prelude.{◌≡◌};
ghost use Rattle.line_table.specs.Reading.{edit};

use edit_calls::{Ask, Call};
use take_back::{Deed, Step};

/// A line that a station sends: an edit or the taking back of one, a question to a track, the question how long the
/// journal is, the wish for the document of the cut after so many entries, or the wish for the entry at a place of the
/// journal.
///
/// A line does not say which station sends it, so a step that was read of one is asked for by station 0.
#[derive(Drop)]
pub enum Line {
    Edit(Step<Call>),
    Ask(Ask),
    Point,
    Otio(u32),
    News(u32),
}

// The line that asks for an edit.
pub(crate) fn edit(call: Call) -> Line
    ensures { result ≡ edit call }
{
    Line::Edit(Step {
        by: 0,
        act: Deed::Do(call),
    })
}
