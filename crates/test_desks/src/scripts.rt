// Two stations that edit a room and have its desk keep the file up to a point, as a script says.
ghost use Rattle.std.specs.Prelude.{◌≡◌, [], Some};
ghost use Rattle.kept_desk.specs.Desks.{IsReader};
ghost use Rattle.test_desks.specs.NewFiles.{IsNew};

use crate::opening::{NewFile, desk_of, three_of};
use crate::stations::{Shared, Station, edit, keep, settle};
use crate::watching::Quiet;
use cut_room::{Room, RoomBlank};
use edit_journal::{Naming, Pass};
use kept_desk::Filing;
use room_core::PartObject;
use room_disks::Disk;
use room_keepers::KeepFault;
use std::alloc::Global;
use std::marker::Brand;
use std::sync::Wait;

/// What a station does: so many edits, or keeping the file up to a point.
#[derive(Clone, Copy, Debug)]
pub enum Deed {
    Edit(u32),
    Keep(u32),
}

// What a keeping answered: none where it did, and none for an edit.
fn act<D: Disk, J: Naming<Quiet, u32>, K: Filing<u32>, R: Wait>(
    rt: &R,
    alloc: Global,
    room: &Room<Quiet, J>,
    desk: &Shared<D, J, K>,
    station: &mut Station<J, K>,
    deed: Deed,
) -> Option<KeepFault>
    requires { J.opening ≡ Some (room.now.object, room.now.parts) }
{
    match deed {
        Deed::Edit(count) => {
            for _ in 0..count {
                let _ = edit(rt, alloc, room, station);
            }
            None
        }
        Deed::Keep(n) => keep(rt, alloc, room, desk, station, n),
    }
}

// What each step of a script answered.
fn play<D: Disk, J: Naming<Quiet, u32>, K: Filing<u32>, R: Wait>(
    rt: &R,
    alloc: Global,
    room: &Room<Quiet, J>,
    desk: &Shared<D, J, K>,
    one: &mut Station<J, K>,
    two: &mut Station<J, K>,
    script: &[(u32, Deed)],
) -> Option<Vec<Option<KeepFault>>>
    requires { J.opening ≡ Some (room.now.object, room.now.parts) }
{
    let mut answers = Vec::new(alloc);
    for (number, deed) in script {
        let answer = if *number == 0 {
            act(rt, alloc, room, desk, one, *deed)
        } else {
            act(rt, alloc, room, desk, two, *deed)
        };
        answers.push(answer).ok()?;
    }
    Some(answers)
}

// What a script of the stations of a new room answers, and the disk then.
fn played_by<D: Disk + Drop, J: Naming<Quiet, u32>, K: Filing<u32>, R: Wait>(
    rt: &R,
    alloc: Global,
    room: &Room<Quiet, J>,
    one: Pass<Quiet, J>,
    two: Pass<Quiet, J>,
    last: Pass<Quiet, J>,
    new: NewFile<D>,
    script: &[(u32, Deed)],
) -> Option<(Vec<Option<KeepFault>>, D)>
    requires room { J.opening ≡ Some (room.now.object, room.now.parts) }
    requires reader { IsReader ⟦<Quiet as PartObject>⟧.meaning J.opening last }
    requires new { IsNew D.course new.file new.receipts new.clerk }
    requires table { K.table ≡ new.receipts }
    requires number { K.reader ≡ last.number }
    requires kept { K.kept ≡ [] }
    requires begun { K.begun ≡ D.course new.file.disk }
    requires faults { K.faults ≡ D.faults new.file.disk }
{
    let desk: Shared<D, J, K> = desk_of(new, last);
    let mut one = Station::new(one);
    let mut two = Station::new(two);
    let answers = play(rt, alloc, room, &desk, &mut one, &mut two, script)?;
    let mut desk = desk.close();
    settle(&mut desk, one);
    settle(&mut desk, two);
    let (file, _) = desk.close();
    Some((answers, file.close()))
}

// The same, of a room that is opened.
fn played<D: Disk + Drop, J: Naming<Quiet, u32>, R: Wait>(
    rt: &R,
    alloc: Global,
    blank: RoomBlank<Quiet>,
    new: NewFile<D>,
    script: &[(u32, Deed)],
) -> Option<(Vec<Option<KeepFault>>, D)>
    requires journal { J.table ≡ blank.journal.table }
    requires opening { J.opening ≡ blank.journal.opening }
    requires stations { J.stations ≡ blank.journal.stations }
    requires new { IsNew D.course new.file new.receipts new.clerk }
    requires three { blank.stations ≡ 3 }
{
    let (room, passes) = Room::<Quiet, J>::open(alloc, blank).ok()?;
    let (one, two, last) = three_of(&room, passes)?;
    played_by::<D, J, Brand, R>(rt, alloc, &room, one, two, last, new, script)
}

/// The same, in a room of its own.
pub fn played_once<D: Disk + Drop, R: Wait>(
    rt: &R,
    alloc: Global,
    blank: RoomBlank<Quiet>,
    new: NewFile<D>,
    script: &[(u32, Deed)],
) -> Option<(Vec<Option<KeepFault>>, D)>
    requires new { IsNew D.course new.file new.receipts new.clerk }
    requires three { blank.stations ≡ 3 }
{
    played::<D, Brand, R>(rt, alloc, blank, new, script)
}
