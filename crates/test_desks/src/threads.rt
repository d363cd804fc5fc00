// Two stations, each in a thread of its own, that share a desk.
ghost use Rattle.std.specs.Prelude.{◌≡◌, [], Some};
ghost use Rattle.kept_desk.specs.Desks.{IsReader};
ghost use Rattle.test_desks.specs.NewFiles.{IsNew};

use crate::opening::{NewFile, blank_of, desk_of, new_file, three_of};
use crate::stations::{Shared, Station, edit, keep, settle};
use crate::texts::opens_with;
use crate::watching::Quiet;
use cut_room::{Room, RoomBlank};
use edit_journal::{Naming, Pass};
use kept_desk::Filing;
use room_core::PartObject;
use room_disks::{Disk, SureDisk};
use std::alloc::Global;
use std::marker::Brand;
use std::sync::Wait;
use std::test::Fail;
use std::thread;
use std::thread::Threads;

// An edit, and the file brought up to it.
fn edit_and_keep<D: Disk, J: Naming<Quiet, u32>, K: Filing<u32>, R: Wait>(
    rt: &R,
    alloc: Global,
    room: &Room<Quiet, J>,
    desk: &Shared<D, J, K>,
    station: &mut Station<J, K>,
)
    requires { J.opening ≡ Some (room.now.object, room.now.parts) }
{
    let n = edit(rt, alloc, room, station);
    let _ = keep(rt, alloc, room, desk, station, n);
}

// The disk, after both stations of a new room have done so.
fn both_by<
    D: Disk + Drop + Send,
    J: Naming<Quiet, u32> + Send + Sync,
    K: Filing<u32> + Send + Sync,
    R: Threads + Wait + Sync,
>(
    rt: &R,
    alloc: Global,
    room: &Room<Quiet, J>,
    one: Pass<Quiet, J>,
    two: Pass<Quiet, J>,
    last: Pass<Quiet, J>,
    new: NewFile<D>,
) -> D
    requires room { J.opening ≡ Some (room.now.object, room.now.parts) }
    requires reader { IsReader ⟦<Quiet as PartObject>⟧.meaning J.opening last }
    requires new { IsNew D.course new.file new.receipts new.clerk }
    requires table { K.table ≡ new.receipts }
    requires number { K.reader ≡ last.number }
    requires kept { K.kept ≡ [] }
    requires begun { K.begun ≡ D.course new.file.disk }
    requires faults { K.faults ≡ D.faults new.file.disk }
{
    let desk: Shared<D, J, K> = desk_of(new, last);
    let mut one = Station::new(one);
    let mut two = Station::new(two);
    let lock = &desk;
    thread::join(
        rt,
        || -> ()
            requires { J.opening ≡ Some (room.now.object, room.now.parts) }
        { edit_and_keep(rt, alloc, room, lock, &mut one) },
        || -> ()
            requires { J.opening ≡ Some (room.now.object, room.now.parts) }
        { edit_and_keep(rt, alloc, room, lock, &mut two) },
    );
    let mut desk = desk.close();
    settle(&mut desk, one);
    settle(&mut desk, two);
    let (file, _) = desk.close();
    file.close()
}

// The same, of a room that is opened.
fn both<D: Disk + Drop + Send, J: Naming<Quiet, u32> + Send + Sync, R: Threads + Wait + Sync>(
    rt: &R,
    alloc: Global,
    blank: RoomBlank<Quiet>,
    new: NewFile<D>,
) -> Option<D>
    requires journal { J.table ≡ blank.journal.table }
    requires opening { J.opening ≡ blank.journal.opening }
    requires stations { J.stations ≡ blank.journal.stations }
    requires new { IsNew D.course new.file new.receipts new.clerk }
    requires three { blank.stations ≡ 3 }
{
    let (room, passes) = Room::<Quiet, J>::open(alloc, blank).ok()?;
    let (one, two, last) = three_of(&room, passes)?;
    Some(both_by::<D, J, Brand, R>(rt, alloc, &room, one, two, last, new))
}

fn both_once<D: Disk + Drop + Send, R: Threads + Wait + Sync>(
    rt: &R,
    alloc: Global,
    blank: RoomBlank<Quiet>,
    new: NewFile<D>,
) -> Option<D>
    requires new { IsNew D.course new.file new.receipts new.clerk }
    requires three { blank.stations ≡ 3 }
{
    both::<D, Brand, R>(rt, alloc, blank, new)
}

#[test]
fn two_threads_share_a_desk(rt: HostRuntime) -> Result<(), Fail> {
    let alloc = rt.alloc();
    let blank = blank_of(alloc).ok().ok_or("a blank")?;
    let new = new_file(alloc, SureDisk::new(alloc, Vec::new(alloc))).ok_or("a file")?;
    let disk = both_once(&rt, alloc, blank, new).ok_or("a disk")?;
    let bytes = disk.tape().ok_or("a tape")?.bytes();
    let first = opens_with(alloc, bytes, "Ab/Bb/")?;
    assert!(rt; first || opens_with(alloc, bytes, "Bb/Ab/")?);
    Ok(())
}
