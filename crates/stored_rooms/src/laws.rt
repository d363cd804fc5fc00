//! What holds of all kept files.
ghost use Rattle.stored_rooms.specs.KeptFiles.{AcceptedAreNotRefused};

use composables::{Done, Refusal};
use cut_steps::{BackDone, BackRefusal, CutPart};
use journal_file::laws::{a_damaged_file_has_none, a_file_has_one_list_of_records};
use kept_rooms::records_have_one_reading;

/// A kept file that is told, not too long, and of entries that all apply, is refused for nothing.
pub fn accepted_files_are_not_refused()
    ensures { AcceptedAreNotRefused }
{
    a_damaged_file_has_none();
    a_file_has_one_list_of_records();
    records_have_one_reading::<CutPart, BackDone<Done>, BackRefusal<Refusal>>();
}
