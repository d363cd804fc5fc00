// A new kept file, and its desk in a cutting room.
ghost use Rattle.std.specs.Prelude.{◌≡◌, [], IfSome};
ghost use Rattle.kept_desk.specs.Desks.{IsReader};
ghost use Rattle.test_kept_lines.specs.NewFiles.{IsNew};

use append_receipts::{Clerk, Receipts};
use cut_steps::{CutCall, CutObject, CutPart};
use edit_journal::{Naming, Pass};
use journal_file::JournalFile;
use kept_desk::{Desk, Filing, KeptDesk};
use kept_lines::CutLines;
use room_core::PartObject;
use room_disks::Disk;
use std::alloc::Global;

pub type Shared<D, J, K> = KeptDesk<D, CutObject, J, K, CutLines>;

// An open file without records, and its receipts.
#[derive(Drop)]
pub struct NewFile<D: Disk> {
    pub file: JournalFile<D>,
    pub receipts: Receipts,
    pub clerk: Clerk,
}

// The file of a disk, where it has no record.
pub fn new_file<D: Disk + Drop>(alloc: Global, disk: D) -> Option<NewFile<D>>
    ensures { IfSome result (λ n. IsNew D.course n.file n.receipts n.clerk) }
{
    let (file, records) = JournalFile::open(alloc, disk).ok()?;
    if !records.is_empty() {
        return None;
    }
    let (receipts, clerk) = Receipts::open(alloc, file.count()).ok()?;
    Some(NewFile {
        file,
        receipts,
        clerk,
    })
}

// A desk over such a file, of a room that has no entry yet.
pub fn desk_of<D: Disk, J: Naming<CutObject, CutPart>, K: Filing<CutCall>>(
    new: NewFile<D>,
    pass: Pass<CutObject, J>,
) -> Shared<D, J, K>
    requires new { IsNew D.course new.file new.receipts new.clerk }
    requires reader { IsReader ⟦<CutObject as PartObject>⟧.meaning J.opening pass }
    requires table { K.table ≡ new.receipts }
    requires kept { K.kept ≡ [] }
    requires number { K.reader ≡ pass.number }
    requires begun { K.begun ≡ D.course new.file.disk }
    requires faults { K.faults ≡ D.faults new.file.disk }
{
    let NewFile {
        file,
        receipts,
        clerk,
    } = new;
    KeptDesk::new(Desk::new(file, pass, receipts, clerk, CutLines))
}
