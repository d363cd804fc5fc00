// A kept file that is opened by its name.
ghost use Rattle.std.specs.Prelude.{◌≡◌, ◌≤◌, None, IfErr, IfOk};
ghost use Rattle.command_files.specs.Ports.{disk_told};
ghost use Rattle.journal_file.specs.Standing.{StandsFor};
ghost use Rattle.stored_rooms.specs.Inside.{IsOpenFile, IsUnopenedFile};

use journal_file::{JournalFile, OpenFault, Record};
use room_disks::Disk;
use std::alloc::Global;

/// An open kept file, and the records that it has.
#[derive(Drop)]
pub(crate) struct OpenFile<D: Disk> {
    pub(crate) file: JournalFile<D>,
    pub(crate) records: Vec<Record>,
}

// Opens the file of this name, or hands the disk back with the fault.
pub(crate) fn open_file<D: Disk>(
    alloc: Global,
    disk: D,
    name: &str,
) -> Result<OpenFile<D>, (OpenFault, D)>
    ensures open { IfOk result (λ f. IsOpenFile D.course D.faults name.now
        (disk_told D.file D.course D.faults disk) f.file f.records.items) }
    ensures stands { IfOk result (λ f. StandsFor D.course f.file f.records.items) }
    ensures settled { IfOk result (λ f. f.file.pending ≡ None) }
    ensures few { IfOk result (λ f. f.file.count ≤ 100000) }
    ensures fault { IfErr result (λ e. IsUnopenedFile name.now
        (disk_told D.file D.course D.faults disk) (disk_told D.file D.course D.faults e.1) e.0) }
{
    let mut disk = disk;
    match disk.open(name) {
        Ok(()) => {}
        Err(_) => return Err((OpenFault::Failed, disk)),
    }
    match JournalFile::open(alloc, disk) {
        Ok((file, records)) => Ok(OpenFile { file, records }),
        Err((fault, disk)) => Err((fault, disk)),
    }
}
