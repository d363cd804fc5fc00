// What keeps a room's journal, asked by the trait of all that do.
ghost use Rattle.std.specs.Prelude.{◌≡◌, ◌≤◌, [], Some};
ghost use Rattle.kept_desk.specs.Desks.{IsReader};
ghost use Rattle.test_desks.specs.NewFiles.{IsNew};

use crate::opening::{NewFile, blank_of, desk_of, new_file, three_of};
use crate::stations::{Shared, Station, edit};
use crate::watching::Quiet;
use cut_room::{Room, RoomBlank};
use edit_journal::{Naming, Pass};
use kept_desk::Filing;
use room_core::PartObject;
use room_disks::{Disk, MemDisk};
use room_keepers::{KeepFault, Keeping, KeepsNothing};
use std::alloc::Global;
use std::marker::Brand;
use std::sync::Wait;
use std::test::Fail;

// What who asked for a point was told: whether it was kept before, why it was not kept then, and whether it is now.
#[derive(Clone, Copy, Debug, PartialEq, Eq)]
struct Word {
    before: bool,
    fault: Option<KeepFault>,
    after: bool,
}

// Asks for a point, whatever keeps the journal.
fn ask<P: Keeping<Quiet, J>, J: Naming<Quiet, u32>, R: Wait>(
    rt: &R,
    alloc: Global,
    room: &Room<Quiet, J>,
    keeper: &P,
    n: u32,
) -> Word
    requires room { J.opening ≡ Some (room.now.object, room.now.parts) }
    requires within { n ≤ 100000 }
{
    let mut taken = None;
    let before = keeper.is_kept(&taken, n);
    let kept = keeper.keep(rt, alloc, room, n, &mut taken);
    let after = keeper.is_kept(&taken, n);
    Word {
        before,
        fault: kept.err(),
        after,
    }
}

// What nothing and a desk tell of the first entry of a new room.
fn told_by<D: Disk + Drop, J: Naming<Quiet, u32>, K: Filing<u32> + Send, R: Wait>(
    rt: &R,
    alloc: Global,
    room: &Room<Quiet, J>,
    one: Pass<Quiet, J>,
    last: Pass<Quiet, J>,
    new: NewFile<D>,
) -> (Word, Word)
    requires room { J.opening ≡ Some (room.now.object, room.now.parts) }
    requires reader { IsReader ⟦<Quiet as PartObject>⟧.meaning J.opening last }
    requires new { IsNew D.course new.file new.receipts new.clerk }
    requires table { K.table ≡ new.receipts }
    requires number { K.reader ≡ last.number }
    requires kept { K.kept ≡ [] }
    requires begun { K.begun ≡ D.course new.file.disk }
    requires faults { K.faults ≡ D.faults new.file.disk }
{
    let desk: Shared<D, J, K> = desk_of(new, last);
    let mut one: Station<J, K> = Station::new(one);
    let _ = edit(rt, alloc, room, &mut one);
    let nothing = ask(rt, alloc, room, &KeepsNothing, 1);
    let kept = ask(rt, alloc, room, &desk, 1);
    (nothing, kept)
}

// The same, of a room that is opened.
fn told<D: Disk + Drop, J: Naming<Quiet, u32>, R: Wait>(
    rt: &R,
    alloc: Global,
    blank: RoomBlank<Quiet>,
    new: NewFile<D>,
) -> Option<(Word, Word)>
    requires journal { J.table ≡ blank.journal.table }
    requires opening { J.opening ≡ blank.journal.opening }
    requires stations { J.stations ≡ blank.journal.stations }
    requires new { IsNew D.course new.file new.receipts new.clerk }
    requires three { blank.stations ≡ 3 }
{
    let (room, passes) = Room::<Quiet, J>::open(alloc, blank).ok()?;
    let (one, _, last) = three_of(&room, passes)?;
    Some(told_by::<D, J, Brand, R>(rt, alloc, &room, one, last, new))
}

fn told_once<D: Disk + Drop, R: Wait>(
    rt: &R,
    alloc: Global,
    blank: RoomBlank<Quiet>,
    new: NewFile<D>,
) -> Option<(Word, Word)>
    requires new { IsNew D.course new.file new.receipts new.clerk }
    requires three { blank.stations ≡ 3 }
{
    told::<D, Brand, R>(rt, alloc, blank, new)
}

// A failing call of the disk, or none, and what the desk tells.
const ROWS: [(&[u32], Word); 2] = [
    (
        &[],
        Word {
            before: false,
            fault: None,
            after: true,
        },
    ),
    (
        &[6],
        Word {
            before: false,
            fault: Some(KeepFault::Disk),
            after: false,
        },
    ),
];

// Nothing keeps no entry, and says of each that it is kept.
const NOTHING: Word = Word {
    before: true,
    fault: None,
    after: true,
};

#[test]
fn whatever_keeps_the_journal_is_asked_alike(rt: HostRuntime) -> Result<(), Fail> {
    let alloc = rt.alloc();
    for (failing, by_desk) in ROWS {
        let blank = blank_of(alloc).ok().ok_or("a blank")?;
        let failing = Vec::from_slice(alloc, failing)?;
        let disk = MemDisk::new(alloc, Vec::new(alloc), failing);
        let new = new_file(alloc, disk).ok_or("a file")?;
        let (nothing, kept) = told_once(&rt, alloc, blank, new).ok_or("a room")?;
        assert!(rt; nothing == NOTHING);
        assert!(rt; kept == by_desk);
    }
    Ok(())
}
