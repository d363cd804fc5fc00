// A desk over a new kept file, and a room that is to use it.
ghost use Rattle.std.specs.Prelude.{◌≡◌, [], Some, IfOk, IfSome};
ghost use Rattle.edit_journal.specs.Turns.{AreFresh};
ghost use Rattle.kept_desk.specs.Desks.{IsReader};
ghost use Rattle.test_desks.specs.NewFiles.{IsNew};

use crate::lines::Letters;
use crate::stations::Shared;
use crate::watching::{Nobody, Quiet};
use append_receipts::{Clerk, Receipts};
use cut_room::{Room, RoomBlank};
use edit_journal::{Naming, Pass};
use journal_file::JournalFile;
use kept_desk::{Desk, Filing, KeptDesk};
use room_core::{Memory, PartObject};
use room_disks::Disk;
use std::alloc::Global;
use test_counters::Watched;

// Two parts, for two stations and one that stays with the file.
pub fn blank_of(alloc: Global) -> Result<RoomBlank<Quiet>, Memory>
    ensures { IfOk result (λ b. b.stations ≡ 3) }
{
    let mut parts = Vec::new(alloc);
    parts.push(0)?;
    parts.push(0)?;
    RoomBlank::new(alloc, Watched { watch: Nobody }, parts, 3)
}

// An open file without records, and its receipts.
#[derive(Drop)]
pub struct NewFile<D: Disk> {
    pub file: JournalFile<D>,
    pub receipts: Receipts,
    pub clerk: Clerk,
}

// The file of a disk, where it has no record.
pub fn new_file<D: Disk + Drop>(alloc: Global, disk: D) -> Option<NewFile<D>>
    ensures { IfSome result (λ n. IsNew D.course n.file n.receipts n.clerk) }
{
    let (file, records) = JournalFile::open(alloc, disk).ok()?;
    if !records.is_empty() {
        return None;
    }
    let (receipts, clerk) = Receipts::open(alloc, file.count()).ok()?;
    Some(NewFile {
        file,
        receipts,
        clerk,
    })
}

// A desk over such a file, of a room that has no entry yet.
pub fn desk_of<D: Disk, J: Naming<Quiet, u32>, K: Filing<u32>>(
    new: NewFile<D>,
    pass: Pass<Quiet, J>,
) -> Shared<D, J, K>
    requires new { IsNew D.course new.file new.receipts new.clerk }
    requires reader { IsReader ⟦<Quiet as PartObject>⟧.meaning J.opening pass }
    requires table { K.table ≡ new.receipts }
    requires kept { K.kept ≡ [] }
    requires number { K.reader ≡ pass.number }
    requires begun { K.begun ≡ D.course new.file.disk }
    requires faults { K.faults ≡ D.faults new.file.disk }
{
    let NewFile {
        file,
        receipts,
        clerk,
    } = new;
    KeptDesk::new(Desk::new(file, pass, receipts, clerk, Letters))
}

// The passes of three stations, of which the last has read nothing and has no entry.
pub fn three_of<J: Naming<Quiet, u32>>(
    room: &Room<Quiet, J>,
    passes: Vec<Pass<Quiet, J>>,
) -> Option<(Pass<Quiet, J>, Pass<Quiet, J>, Pass<Quiet, J>)>
    requires fresh { AreFresh J.opening 3 passes.items }
    requires room { J.opening ≡ Some (room.now.object, room.now.parts) }
    ensures { IfSome result (λ r. IsReader ⟦<Quiet as PartObject>⟧.meaning J.opening r.2) }
{
    let _ = room;
    let mut passes = passes;
    let last = passes.pop()?;
    let two = passes.pop()?;
    let one = passes.pop()?;
    Some((one, two, last))
}
