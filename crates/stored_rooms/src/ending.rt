// How it ends where a kept file is refused, or is not opened.
ghost use Rattle.std.specs.Prelude.{◌≡◌};
ghost use Rattle.command_files.specs.Ports.{change, output_told};
ghost use Rattle.command_files.specs.Texts.{PutsWith};
ghost use Rattle.command_files.specs.declared.status.Status.TheVariants as ended;
ghost use Rattle.stored_rooms.specs.Inside.{UnmadeEnds, UnopenedEnds};
ghost use Rattle.stored_rooms.specs.KeptFiles.{kept_line};

use crate::KeptRefusal;
use command_files::{Refusal, Status, end_with};
use journal_file::OpenFault;
use kept_rooms::KeptFault;
use room_ports::Sink;

// Ends with the line of a refusal.
fn end_refused<K: Sink>(refusal: KeptRefusal, output: &mut K) -> Status
    ensures { PutsWith ended.Refused (kept_line refusal)
        (output_told K.taken K.write_faults output.old)
        (output_told K.taken K.write_faults output.new) result }
{
    end_with(Status::Refused, refusal.line().as_bytes(), output)
}

// How it ends where the file was not opened.
pub(crate) fn end_unopened<K: Sink>(fault: OpenFault, output: &mut K) -> Status
    ensures { UnopenedEnds fault
        (change (output_told K.taken K.write_faults) output.old output.new) result }
{
    match fault {
        OpenFault::Failed => Status::DiskFault,
        OpenFault::TooLarge => end_refused(KeptRefusal::TooLarge, output),
        OpenFault::Damaged(at) => end_refused(KeptRefusal::Damaged { at }, output),
        OpenFault::TooMany(count) => end_refused(KeptRefusal::TooMany { count }, output),
        OpenFault::Memory => Status::OutOfMemory,
    }
}

// How it ends where the records were not made entries again.
pub(crate) fn end_unmade<K: Sink>(fault: KeptFault, output: &mut K) -> Status
    ensures { UnmadeEnds fault
        (change (output_told K.taken K.write_faults) output.old output.new) result }
{
    match fault {
        KeptFault::Refused { code, number } => {
            end_refused(KeptRefusal::Record { code, number }, output)
        }
        KeptFault::NotApplied { place } => end_refused(KeptRefusal::NotApplied { place }, output),
        KeptFault::Strayed => Status::OutOfMemory,
        KeptFault::Memory => Status::OutOfMemory,
    }
}
