// The object that a room of cuts keeps, its parts and its calls.
ghost use Rattle.std.specs.Prelude.{◌≡◌};

use composables::{Table, Track};
use edit_apply::Editor;
use edit_calls::Call;
use take_back::{Backed, Kept, Step};

/// What a room keeps: the editor of a cut, whose edits can be taken back.
pub type CutObject = Backed<Editor>;

/// A part of what a room keeps: a track, and what it was before its last edit.
pub type CutPart = Kept<Track>;

/// What a station asks to be done to it: an edit, or the taking back of its last one on some tracks.
pub type CutCall = Step<Call>;

/// The object of a room with this table of kinds and media.
pub fn cut_object(table: Table) -> CutObject
    ensures { result.object.table ≡ table }
{
    Backed {
        object: Editor { table },
    }
}
