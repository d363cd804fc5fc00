// A room whose journal is kept on a disk as it grows: the file is opened, its entries are made again, and the stations are
// served over a desk with the file.
ghost use Rattle.std.specs.Prelude.{◌≡◌, ◌+◌, ◌<◌, ◌≤◌, ℕ, List, None, Some, length};
ghost use Rattle.command_files.specs.Ports.{DiskTold, change, disk_told, output_told};
ghost use Rattle.edit_journal.specs.Turns.{AreFresh};
ghost use Rattle.journal_file.specs.Standing.{StandsFor};
ghost use Rattle.otio_json.specs.Soundness.{IsSoundOpening};
ghost use Rattle.otio_json.specs.declared.opening.Opening.{Opening as OpeningOf};
ghost use Rattle.station_sessions.specs.Served.{IsRoomOf};
ghost use Rattle.station_sessions.specs.SessionInside.{TrackOpening, opened_with};
ghost use Rattle.stored_rooms.specs.Inside.{IsOpenFile};
ghost use Rattle.stored_rooms.specs.Stored.{StoredEnds};

use crate::ending::{end_unmade, end_unopened};
use crate::opening::{OpenFile, open_file};
use crate::remaking::{serve_remade, without_reader};
use command_files::Status;
use cut_room::{Room, RoomBlank};
use cut_steps::{CutObject, CutPart};
use edit_journal::{Naming, Pass};
use kept_rooms::make_again;
use otio_json::Opening;
use room_disks::Disk;
use room_halls::Hall;
use room_ports::{Gate, Sink};
use served_rooms::Venue;
use station_sessions::{Setting, begin_room};
use std::alloc::Global;
use std::marker::Brand;
use std::sync::Wait;
use std::thread::Threads;

// Makes the records of the file the first entries of a room that has just been opened, and serves its stations. The room
// has a pass more than stations, with which the desk reads its journal.
fn store_room<
    R: Threads + Wait + Sync,
    D: Disk + Send + Drop,
    K: Sink,
    H: Hall,
    G: Gate + Sync,
    J: Naming<CutObject, CutPart> + Send + Sync,
>(
    rt: &R,
    alloc: Global,
    room: Room<CutObject, J>,
    passes: Vec<Pass<CutObject, J>>,
    setting: Setting,
    place: &Venue<'_>,
    opened: OpenFile<D>,
    output: &mut K,
    hall: &mut H,
    gate: &G,
) -> (Status, D)
    requires room { J.opening ≡ Some (room.object, room.parts) }
    requires passes { AreFresh J.opening room.stations passes.items }
    requires stations { room.stations ≡ place.now.stations + 1 }
    requires few { place.now.stations ≤ 16 }
    requires begins { (o : OpeningOf) × IsRoomOf o room setting.counting setting.start }
    requires stands { StandsFor D.course opened.file opened.records.items }
    requires settled { opened.file.pending ≡ None }
    requires most { opened.file.count ≤ 100000 }
    ensures { (o : OpeningOf) (name : List ℕ) (before : DiskTold)
        → IsRoomOf o room setting.counting setting.start
        → IsOpenFile D.course D.faults name before opened.file opened.records.items
        → StoredEnds o place.now.stations place.now.address.now name
        (change (output_told K.taken K.write_faults) output.old output.new)
        (change H.told hall.old hall.new) before (disk_told D.file D.course D.faults result.1)
        result.0 }
{
    let OpenFile { file, records } = opened;
    let (passes, reader) = without_reader(passes);
    match make_again(rt, alloc, &room, passes, reader, &records) {
        Ok(remade) => serve_remade(rt, alloc, room, remade, file, setting, place, hall, gate),
        Err(fault) => (end_unmade(fault, output), file.close()),
    }
}

// Opens the room of a blank, and serves the stations of a place in it.
fn store_blank<
    R: Threads + Wait + Sync,
    D: Disk + Send + Drop,
    K: Sink,
    H: Hall,
    G: Gate + Sync,
    J: Naming<CutObject, CutPart> + Send + Sync,
>(
    rt: &R,
    alloc: Global,
    blank: RoomBlank<CutObject>,
    setting: Setting,
    place: &Venue<'_>,
    opened: OpenFile<D>,
    output: &mut K,
    hall: &mut H,
    gate: &G,
) -> (Status, D)
    requires table { J.table ≡ blank.journal.table }
    requires opening { J.opening ≡ blank.journal.opening }
    requires journal { J.stations ≡ blank.journal.stations }
    requires stations { blank.stations ≡ place.now.stations + 1 }
    requires few { place.now.stations ≤ 16 }
    requires begins { (o : OpeningOf) × (opening : TrackOpening)
        × (blank.journal.opening ≡ Some opening)
        × IsRoomOf o (opened_with opening blank.stations) setting.counting setting.start }
    requires stands { StandsFor D.course opened.file opened.records.items }
    requires settled { opened.file.pending ≡ None }
    requires most { opened.file.count ≤ 100000 }
    ensures { (o : OpeningOf) (opening : TrackOpening) (name : List ℕ) (before : DiskTold)
        → blank.journal.opening ≡ Some opening
        → IsRoomOf o (opened_with opening blank.stations) setting.counting setting.start
        → IsOpenFile D.course D.faults name before opened.file opened.records.items
        → StoredEnds o place.now.stations place.now.address.now name
        (change (output_told K.taken K.write_faults) output.old output.new)
        (change H.told hall.old hall.new) before (disk_told D.file D.course D.faults result.1)
        result.0 }
{
    let (room, passes) = match Room::<CutObject, J>::open(alloc, blank) {
        Ok(opened) => opened,
        Err(_) => return (Status::OutOfMemory, opened.file.close()),
    };
    store_room(
        rt, alloc, room, passes, setting, place, opened, output, hall, gate,
    )
}

// Serves the stations of a place in a room that begins so, and goes on from the records of an open file.
fn store_file<R: Threads + Wait + Sync, D: Disk + Send + Drop, K: Sink, H: Hall, G: Gate + Sync>(
    rt: &R,
    alloc: Global,
    opening: Opening,
    place: &Venue<'_>,
    opened: OpenFile<D>,
    output: &mut K,
    hall: &mut H,
    gate: &G,
) -> (Status, D)
    requires sound { IsSoundOpening opening }
    requires some { 0 < length opening.tracks }
    requires stations { (0 < place.now.stations) × (place.now.stations ≤ 16) }
    requires stands { StandsFor D.course opened.file opened.records.items }
    requires settled { opened.file.pending ≡ None }
    requires most { opened.file.count ≤ 100000 }
    ensures { (name : List ℕ) (before : DiskTold)
        → IsOpenFile D.course D.faults name before opened.file opened.records.items
        → StoredEnds opening place.now.stations place.now.address.now name
        (change (output_told K.taken K.write_faults) output.old output.new)
        (change H.told hall.old hall.new) before (disk_told D.file D.course D.faults result.1)
        result.0 }
{
    let (blank, setting) = match begin_room(alloc, opening, place.stations + 1) {
        Ok(begun) => begun,
        Err(_) => return (Status::OutOfMemory, opened.file.close()),
    };
    store_blank::<R, D, K, H, G, Brand>(
        rt, alloc, blank, setting, place, opened, output, hall, gate,
    )
}

/// Serves the stations of a place, all at once, in a room that begins so and goes on from the kept file of the place on this
/// disk. Every entry that a reply tells of stands in the file before that reply is put. The disk is handed back.
pub fn store_opened<
    R: Threads + Wait + Sync,
    D: Disk + Send + Drop,
    K: Sink,
    H: Hall,
    G: Gate + Sync,
>(
    rt: &R,
    alloc: Global,
    opening: Opening,
    place: &Venue<'_>,
    disk: D,
    output: &mut K,
    hall: &mut H,
    gate: &G,
) -> (Status, D)
    requires sound { IsSoundOpening opening }
    requires some { 0 < length opening.tracks }
    requires stations { (0 < place.now.stations) × (place.now.stations ≤ 16) }
    ensures { StoredEnds opening place.now.stations place.now.address.now place.now.journal.now
        (change (output_told K.taken K.write_faults) output.old output.new)
        (change H.told hall.old hall.new)
        (disk_told D.file D.course D.faults disk) (disk_told D.file D.course D.faults result.1)
        result.0 }
{
    match open_file(alloc, disk, place.journal) {
        Ok(opened) => store_file(rt, alloc, opening, place, opened, output, hall, gate),
        Err((fault, disk)) => (end_unopened(fault, output), disk),
    }
}
