// A room whose first entries are those of its kept file, and that is served from there on.
ghost use Rattle.std.specs.Prelude.{◌≡◌, ◌+◌, ◌<◌, ◌≤◌, [], ℕ, List, None, Some, length, map};
ghost use Rattle.cut_steps.specs.CutSteps.{stepping};
ghost use Rattle.command_files.specs.Ports.{DiskTold, disk_told};
ghost use Rattle.edit_journal.specs.Turns.{AreFresh};
ghost use Rattle.journal_file.specs.Standing.{StandsFor};
ghost use Rattle.kept_rooms.specs.Kept.{AreKept};
ghost use Rattle.kept_rooms.specs.Rooms.{EachKnowsOwn, KnowsAll};
ghost use Rattle.otio_json.specs.declared.opening.Opening.{Opening as OpeningOf};
ghost use Rattle.station_sessions.specs.Served.{IsRoomOf};
ghost use Rattle.stored_rooms.specs.Inside.{DeskEnds, IsOpenFile};

use crate::closing::CutDesk;
use crate::serving::serve_desk;
use append_receipts::{Clerk, Receipts};
use command_files::Status;
use cut_room::Room;
use cut_steps::{CutCall, CutObject, CutPart};
use edit_journal::{Naming, Pass};
use journal_file::JournalFile;
use kept_desk::{Desk, Filing};
use kept_lines::CutLines;
use kept_rooms::Remade;
use room_disks::Disk;
use room_halls::Hall;
use room_ports::Gate;
use served_rooms::Venue;
use station_sessions::Setting;
use std::alloc::Global;
use std::marker::Brand;
use std::sync::Wait;
use std::thread::Threads;

// The passes of the stations, and that of the desk, which is the last.
pub(crate) fn without_reader<J: Naming<CutObject, CutPart>>(
    passes: Vec<Pass<CutObject, J>>,
) -> (Vec<Pass<CutObject, J>>, Pass<CutObject, J>)
    requires fresh { AreFresh J.opening (length passes.items) passes.items }
    requires some { 0 < length passes.items }
    ensures fewer { AreFresh J.opening (length result.0.items) result.0.items }
    ensures count { length passes.items ≡ length result.0.items + 1 }
    ensures number { result.1.number ≡ length result.0.items }
    ensures none { result.1.entries ≡ [] }
{
    let mut passes = passes;
    match passes.pop() {
        Some(reader) => (passes, reader),
        None => unreachable!(),
    }
}

// An open kept file, and the clerk who counts its records.
#[derive(Drop)]
struct CountedFile<D: Disk> {
    file: JournalFile<D>,
    receipts: Receipts,
    clerk: Clerk,
}

// Serves the stations over a desk that a call names.
fn serve_filed<
    R: Threads + Wait + Sync,
    D: Disk + Send + Drop,
    H: Hall,
    G: Gate + Sync,
    J: Naming<CutObject, CutPart> + Send + Sync,
    K: Filing<CutCall> + Send + Sync,
>(
    rt: &R,
    alloc: Global,
    room: Room<CutObject, J>,
    remade: Remade<CutObject, J>,
    counted: CountedFile<D>,
    setting: Setting,
    place: &Venue<'_>,
    hall: &mut H,
    gate: &G,
) -> (Status, D)
    requires room { J.opening ≡ Some (room.object, room.parts) }
    requires stations { room.stations ≡ length remade.passes.items + 1 }
    requires few { length remade.passes.items ≤ 16 }
    requires entries { (records : List (List ℕ)) × AreKept (stepping room.object.object.table) room.parts
        (length remade.passes.items) records remade.entries.items
        × StandsFor D.course counted.file records }
    requires reader { KnowsAll (stepping room.object.object.table) room.parts remade.entries.items
        remade.reader }
    requires number { remade.reader.number ≡ length remade.passes.items }
    requires passes { EachKnowsOwn (stepping room.object.object.table) room.parts remade.entries.items
        remade.passes.items }
    requires settled { counted.file.pending ≡ None }
    requires clerk { counted.clerk
        ≡ record { table = counted.receipts; kept = counted.file.count; failed = 0 } }
    requires table { K.table ≡ counted.receipts }
    requires is_reader { K.reader ≡ remade.reader.number }
    requires kept { K.kept ≡ remade.entries.items }
    requires begun { K.begun ≡ D.course counted.file.disk }
    requires faults { K.faults ≡ D.faults counted.file.disk }
    ensures { (o : OpeningOf) (name : List ℕ) (before : DiskTold) (records : List (List ℕ))
        → IsRoomOf o room setting.counting setting.start
        → IsOpenFile D.course D.faults name before counted.file records
        → DeskEnds o remade.entries.items (length remade.passes.items)
        place.now.address.now name records
        before (disk_told D.file D.course D.faults result.1)
        (H.told hall.old) (H.told hall.new) result.0 }
{
    let Remade {
        entries: _,
        passes,
        reader,
    } = remade;
    let CountedFile {
        file,
        receipts,
        clerk,
    } = counted;
    let desk: CutDesk<D, J, K> = Desk::new(file, reader, receipts, clerk, CutLines);
    let address = place.address;
    serve_desk(rt, alloc, room, passes, desk, setting, address, hall, gate)
}

// Serves the stations of a room whose entries were made again, over a desk with the file.
pub(crate) fn serve_remade<
    R: Threads + Wait + Sync,
    D: Disk + Send + Drop,
    H: Hall,
    G: Gate + Sync,
    J: Naming<CutObject, CutPart> + Send + Sync,
>(
    rt: &R,
    alloc: Global,
    room: Room<CutObject, J>,
    remade: Remade<CutObject, J>,
    file: JournalFile<D>,
    setting: Setting,
    place: &Venue<'_>,
    hall: &mut H,
    gate: &G,
) -> (Status, D)
    requires room { J.opening ≡ Some (room.object, room.parts) }
    requires stations { room.stations ≡ length remade.passes.items + 1 }
    requires few { length remade.passes.items ≤ 16 }
    requires entries { (records : List (List ℕ)) × AreKept (stepping room.object.object.table) room.parts
        (length remade.passes.items) records remade.entries.items
        × StandsFor D.course file records }
    requires reader { KnowsAll (stepping room.object.object.table) room.parts remade.entries.items
        remade.reader }
    requires number { remade.reader.number ≡ length remade.passes.items }
    requires passes { EachKnowsOwn (stepping room.object.object.table) room.parts remade.entries.items
        remade.passes.items }
    requires settled { file.pending ≡ None }
    requires most { file.count ≤ 100000 }
    ensures { (o : OpeningOf) (name : List ℕ) (before : DiskTold) (records : List (List ℕ))
        → IsRoomOf o room setting.counting setting.start
        → IsOpenFile D.course D.faults name before file records
        → DeskEnds o remade.entries.items (length remade.passes.items)
        place.now.address.now name records
        before (disk_told D.file D.course D.faults result.1)
        (H.told hall.old) (H.told hall.new) result.0 }
{
    let (receipts, clerk) = match Receipts::open(alloc, file.count()) {
        Ok(opened) => opened,
        Err(_) => return (Status::OutOfMemory, file.close()),
    };
    let counted = CountedFile {
        file,
        receipts,
        clerk,
    };
    serve_filed::<R, D, H, G, J, Brand>(
        rt, alloc, room, remade, counted, setting, place, hall, gate,
    )
}
