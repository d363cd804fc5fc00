// Edits of two stations, and the bytes that are kept of them.
ghost use Rattle.std.specs.Prelude.{◌≡◌, ◌<◌, [], Some};
ghost use Rattle.kept_desk.specs.Desks.{IsReader};
ghost use Rattle.test_kept_lines.specs.NewFiles.{IsNew};

use crate::files::{NewFile, Shared, desk_of, new_file};
use crate::rooms::{blank_of, send, three_of};
use cut_room::{Room, RoomBlank};
use cut_steps::{CutCall, CutObject, CutPart};
use edit_journal::{Naming, Pass};
use kept_desk::Filing;
use room_core::PartObject;
use room_disks::{Disk, MemDisk};
use std::alloc::Global;
use std::marker::Brand;
use std::sync::Wait;
use std::sync::ledger::{Blank, Ledger};
use std::test::Fail;
use step_count::Steps;

// The disk, after edits of two stations of a new room were kept.
fn kept_by<D: Disk + Drop, J: Naming<CutObject, CutPart>, K: Filing<CutCall>, R: Wait, L: Ledger>(
    rt: &R,
    alloc: Global,
    room: &Room<CutObject, J>,
    one: Pass<CutObject, J>,
    two: Pass<CutObject, J>,
    last: Pass<CutObject, J>,
    new: NewFile<D>,
    ledger: Blank,
) -> Option<D>
    requires room { J.opening ≡ Some (room.now.object, room.now.parts) }
    requires reader { IsReader ⟦<CutObject as PartObject>⟧.meaning J.opening last }
    requires new { IsNew D.course new.file new.receipts new.clerk }
    requires table { K.table ≡ new.receipts }
    requires number { K.reader ≡ last.number }
    requires kept { K.kept ≡ [] }
    requires begun { K.begun ≡ D.course new.file.disk }
    requires faults { K.faults ≡ D.faults new.file.disk }
    requires ledger { (ledger.name ≡ L.name) × (ledger.parts ≡ L.parts) × (0 < ledger.parts) }
{
    let mut steps = Steps::<L>::new(ledger);
    let desk: Shared<D, J, K> = desk_of(new, last);
    let one = send(rt, alloc, room, one, "overwrite 0 0 @0 5 20", &mut steps);
    let _two = send(rt, alloc, room, two, "overwrite 1 0 @0 5 20", &mut steps);
    let one = send(rt, alloc, room, one, "slice 0 10", &mut steps);
    let _one = send(rt, alloc, room, one, "link 0,1 0,0", &mut steps);
    let (answer, taken) = desk.keep(rt, alloc, room, 4, None);
    let mut desk = desk.close();
    desk.settle(taken);
    let (file, _) = desk.close();
    answer.ok()?;
    Some(file.close())
}

// The same, of a room that is opened.
fn kept<D: Disk + Drop, J: Naming<CutObject, CutPart>, R: Wait>(
    rt: &R,
    alloc: Global,
    blank: RoomBlank<CutObject>,
    new: NewFile<D>,
) -> Option<D>
    requires journal { J.table ≡ blank.journal.table }
    requires opening { J.opening ≡ blank.journal.opening }
    requires stations { J.stations ≡ blank.journal.stations }
    requires new { IsNew D.course new.file new.receipts new.clerk }
    requires three { blank.stations ≡ 3 }
{
    let (room, passes) = Room::<CutObject, J>::open(alloc, blank).ok()?;
    let (one, two, last) = three_of(&room, passes)?;
    let ledger = Blank::new(1);
    kept_by::<D, J, Brand, R, Brand>(rt, alloc, &room, one, two, last, new, ledger)
}

fn kept_once<D: Disk + Drop, R: Wait>(
    rt: &R,
    alloc: Global,
    blank: RoomBlank<CutObject>,
    new: NewFile<D>,
) -> Option<D>
    requires new { IsNew D.course new.file new.receipts new.clerk }
    requires three { blank.stations ≡ 3 }
{
    kept::<D, Brand, R>(rt, alloc, blank, new)
}

const KEPT: &str =
    "cutroom journal 1\n+0 1 overwrite 0 0 @0 5 20\n+1 1 overwrite 1 0 @0 5 20\n+0 2 slice 0 10\n+0 3 link 0,1 0,0\n-";

#[test]
fn edits_of_two_stations_are_kept(rt: HostRuntime) -> Result<(), Fail> {
    let alloc = rt.alloc();
    let blank = blank_of(alloc)?;
    let disk = MemDisk::new(alloc, Vec::new(alloc), Vec::new(alloc));
    let new = new_file(alloc, disk).ok_or("a file")?;
    let disk = kept_once(&rt, alloc, blank, new).ok_or("a disk")?;
    let bytes = disk.tape().ok_or("a tape")?.bytes();
    assert!(rt; bytes == KEPT.as_bytes());
    Ok(())
}
