// A room of several stations, each over its line of a hall, and its journal kept in a file.
ghost use Rattle.std.specs.Prelude.{◌≡◌, ◌<◌, ◌≤◌, [], ℕ, List, true, None, Some, IfErr, IfOk, OnOk, length, map, slice_get, vec_capacity};
ghost use Rattle.journal_text.specs.Journals.{HasRoomForText, HasText};
ghost use Rattle.edit_journal.specs.Turns.{AreFresh};
ghost use Rattle.otio_json.specs.Soundness.{IsSoundOpening};
ghost use Rattle.otio_json.specs.declared.opening.Opening.{Opening as OpeningOf};
ghost use Rattle.room_halls.specs.Stations.{HallTold, OpensAt};
ghost use Rattle.command_files.specs.Unopened.{AreQuiet};
ghost use Rattle.served_rooms.specs.Halls.{EndsUnserved, FileEnds, HallEnds, NeverFails, first_fault, line_at, or_next, status_of};
ghost use Rattle.served_rooms.specs.Seated.{AreNumbered, AreSeated, CanAllBegin, CountsSeats, HasNumber, HasSeated, HaveServed, SeatedState, left_of, unseated};
ghost use Rattle.station_sessions.specs.Served.{IsRoomOf};
ghost use Rattle.station_sessions.specs.SessionInside.{TrackOpening, TrackPass, opened_with};

use crate::seated::{Left, SeatedStation, serve_all};
use command_files::Status;
use cut_room::{Room, RoomBlank};
use cut_steps::{CutCall, CutObject, CutPart};
use edit_journal::{Naming, Pass};
use journal_text::{journal_room, journal_text_into};
use otio_json::Opening;
use room_core::Entry;
use room_files::Files;
use room_halls::{Hall, HallFault};
use room_keepers::{Keeping, KeepsNothing};
use room_ports::{Gate, Line};
use station_sessions::{End, Setting, begin_room};
use std::alloc::Global;
use std::marker::{Brand, Model};
use std::sync::Wait;
use std::thread::Threads;

// The status that a session's end comes to.
fn status_of(end: End) -> Status
    ensures { result ≡ status_of end }
{
    match end {
        End::Ended => Status::Done,
        End::ReadFault => Status::ReadFault,
        End::WriteFault => Status::WriteFault,
        End::TooMuchInput => Status::TooMuchInput,
        End::DiskFault => Status::DiskFault,
        End::KeepMemory => Status::OutOfMemory,
    }
}

// This status, or the next where this one is 0.
fn or_next(status: Status, next: Status) -> Status
    ensures { result ≡ or_next status next }
{
    match status {
        Status::Done => next,
        _ => status,
    }
}

// Seats each station with its pass, from the lowest on, over a line of the hall.
pub(crate) fn seat_all<H: Hall, J: Naming<CutObject, CutPart>, P: Keeping<CutObject, J>>(
    alloc: Global,
    hall: &mut H,
    passes: Vec<Pass<CutObject, J>>,
    seated: &mut Vec<SeatedStation<H::Line, J, P>>,
) -> Result<(), HallFault>
    requires passes { AreNumbered passes.items }
    requires none { seated.old.items ≡ [] }
    requires room { length passes.items ≤ vec_capacity seated.old }

    ensures seated { AreSeated (H.told hall.old) passes.items seated.new.items }
    ensures all { OnOk result (length seated.new.items ≡ length passes.items) }
    ensures within { length seated.new.items ≤ length passes.items }
    ensures held { (k : ℕ) → k < length seated.new.items
        → ((H.told hall.new).station k).seated ≡ true }
    ensures free { (k : ℕ) → length seated.new.items ≤ k
        → (H.told hall.new).station k ≡ (H.told hall.old).station k }
    ensures counts { CountsSeats result (H.told hall.old).faults (H.told hall.new).faults }
    ensures opened { (H.told hall.new).opened ≡ (H.told hall.old).opened }
{
    for pass in passes {
        let station = pass.station();
        match hall.seat_station(alloc, station) {
            Ok(line) => seated.push_reserved(SeatedStation::new(pass, line)),
            Err(fault) => return Err(fault),
        }
    }
    Ok(())
}

// Gives the hall each line back: the first status of a session that is not 0, and what is left of the stations.
fn stand_all_up<H: Hall, J: Naming<CutObject, CutPart>, P: Keeping<CutObject, J>>(
    hall: &mut H,
    seated: Vec<SeatedStation<H::Line, J, P>>,
    left: &mut Vec<Left<J, P>>,
) -> Status
    requires numbers { (k : ℕ) (s : SeatedState) → slice_get seated.items k ≡ Some s
        → HasNumber k s.pass }
    requires held { (k : ℕ) → k < length seated.items
        → ((H.told hall.old).station k).seated ≡ true }
    requires none { left.old.items ≡ [] }
    requires room { length seated.items ≤ vec_capacity left.old }

    ensures lines { (k : ℕ) (s : SeatedState) → slice_get seated.items k ≡ Some s
        → line_at (H.told hall.new) k ≡ s.line }
    ensures free { (k : ℕ) → length seated.items ≤ k
        → (H.told hall.new).station k ≡ (H.told hall.old).station k }
    ensures left { map Some left.new.items ≡ map left_of seated.items }
    ensures fault { result ≡ first_fault (map status_of (map (λ s. s.end) seated.items)) }
    ensures quiet { (H.told hall.new).faults ≡ (H.told hall.old).faults }
    ensures opened { (H.told hall.new).opened ≡ (H.told hall.old).opened }
{
    let mut fault = Status::Done;
    for seat in seated {
        let (line, station) = seat.into_parts();
        hall.stand_up(station.station(), line);
        fault = or_next(fault, status_of(station.end()));
        left.push_reserved(station);
    }
    fault
}

/// Stations that are seated with their passes, and the memory for what will be left of them. Contracts see the seats.
#[derive(Drop)]
pub struct SeatedStations<L: Line, J: Naming<CutObject, CutPart>, P: Keeping<CutObject, J>> {
    pub(crate) seats: Vec<SeatedStation<L, J, P>>,
    pub(crate) left: Vec<Left<J, P>>,
}

impl<L: Line, J: Naming<CutObject, CutPart>, P: Keeping<CutObject, J>> Model
    for SeatedStations<L, J, P> {
    ghost use Rattle.std.specs.Prelude.{◌≡◌, ◌≤◌, [], List, length, vec_capacity};
    ghost use Rattle.served_rooms.specs.Seated.{SeatedState};

    ghost Value = { List SeatedState };

    ghost view = { λ s. s.seats.items };

    ghost invariant = { λ s. (s.left.items ≡ []) × (length s.seats.items ≤ vec_capacity s.left) };
}

/// Opens a hall at an address, and seats the stations that have these passes, each over its line. Where a station was not
/// seated it gives the hall all lines back, and answers the status of that.
pub fn seat_stations<H: Hall, J: Naming<CutObject, CutPart>, P: Keeping<CutObject, J>>(
    alloc: Global,
    passes: Vec<Pass<CutObject, J>>,
    address: &str,
    hall: &mut H,
) -> Result<SeatedStations<H::Line, J, P>, Status>
    requires { AreNumbered passes.items }

    ensures seated { IfOk result (λ seats. HasSeated (H.told hall.old) (H.told hall.new)
        passes.items seats) }
    ensures opened { OnOk result (OpensAt (H.told hall.old).opened (H.told hall.new).opened
        address.now) }
    ensures unserved { IfErr result
        (λ status. EndsUnserved address.now (H.told hall.old) (H.told hall.new) status) }
{
    let count = passes.len();
    let mut seats = match Vec::with_capacity(alloc, count) {
        Ok(seats) => seats,
        Err(_) => return Err(Status::OutOfMemory),
    };
    let mut left = match Vec::with_capacity(alloc, count) {
        Ok(left) => left,
        Err(_) => return Err(Status::OutOfMemory),
    };
    match hall.open(address) {
        Ok(()) => {}
        Err(_) => return Err(Status::NotSeated),
    }
    match seat_all(alloc, hall, passes, &mut seats) {
        Ok(()) => Ok(SeatedStations { seats, left }),
        Err(fault) => {
            stand_all_up(hall, seats, &mut left);
            Err(unseated(fault))
        }
    }
}

/// Serves the sessions of stations that are seated, all at once, each over its line, and gives the hall their lines back:
/// the first status of a session that is not 0, and what is left of each station.
pub fn serve_seated<
    R: Threads + Wait + Sync,
    H: Hall,
    G: Gate + Sync,
    J: Naming<CutObject, CutPart> + Send + Sync,
    P: Keeping<CutObject, J> + Sync,
>(
    rt: &R,
    alloc: Global,
    room: &Room<CutObject, J>,
    seats: SeatedStations<H::Line, J, P>,
    setting: Setting,
    hall: &mut H,
    gate: &G,
    keeper: &P,
) -> (Status, Vec<Left<J, P>>)
    requires room { J.opening ≡ Some (room.now.object, room.now.parts) }
    requires seated { (before : HallTold) × (passes : List TrackPass)
        × HasSeated before (H.told hall.old) passes seats × CanAllBegin room.now passes }
    ensures served { (before : HallTold) (passes : List TrackPass)
        → HasSeated before (H.told hall.old) passes seats → CanAllBegin room.now passes
        → HaveServed room.now setting.counting setting.start (P.upto None) P.may_fail
        passes result.1.items before (H.told hall.new) result.0 }
    ensures many { length result.1.items ≡ length seats }
    ensures opened { (H.told hall.new).opened ≡ (H.told hall.old).opened }
{
    let SeatedStations {
        mut seats,
        mut left,
    } = seats;
    serve_all(rt, alloc, room, gate, keeper, setting, &mut seats);
    let status = stand_all_up(hall, seats, &mut left);
    (status, left)
}

// Takes the passes of the stations whose sessions have ended.
pub(crate) fn take_passes<J: Naming<CutObject, CutPart>, P: Keeping<CutObject, J>>(
    left: Vec<Left<J, P>>,
    passes: &mut Vec<Pass<CutObject, J>>,
)
    requires none { passes.old.items ≡ [] }
    requires room { length left.items ≤ vec_capacity passes.old }
    ensures { passes.new.items ≡ map (λ l. l.pass) left.items }
{
    for station in left {
        let (pass, _) = station.into_parts();
        passes.push_reserved(pass);
    }
}

// Puts the journal's text into the file of this name, by way of the memory that was taken for it.
fn keep_journal<F: Files>(
    mut text: Vec<u8>,
    entries: &[Entry<CutCall>],
    name: &str,
    files: &mut F,
) -> Status
    requires text { HasText entries.now }
    requires room { HasRoomForText text }
    ensures { FileEnds name.now (F.told files.old) (F.told files.new) entries.now result }
{
    journal_text_into(&mut text, entries);
    match files.write_file(name, &text) {
        Ok(()) => Status::Done,
        Err(_) => Status::WriteFault,
    }
}

/// Where a room is served: how many stations it has, the address of their hall, and the name of the file in which the
/// journal is kept.
#[derive(Clone, Copy)]
pub struct Venue<'a> {
    pub stations: u32,
    pub address: &'a str,
    pub journal: &'a str,
}

// Serves the stations of a room that has just been opened, closes it, and keeps the journal. The memory for the journal's
// text is taken before the hall is opened, so that no day's work is lost because there is none.
#[tactic(auto, using(crate::proofs::HallRuns::quiet_same))]
fn serve_room<
    R: Threads + Wait + Sync,
    F: Files,
    H: Hall,
    G: Gate + Sync,
    J: Naming<CutObject, CutPart> + Send + Sync,
>(
    rt: &R,
    alloc: Global,
    room: Room<CutObject, J>,
    passes: Vec<Pass<CutObject, J>>,
    setting: Setting,
    place: &Venue<'_>,
    files: &mut F,
    hall: &mut H,
    gate: &G,
) -> Status
    requires room { J.opening ≡ Some (room.object, room.parts) }
    requires passes { AreFresh J.opening room.stations passes.items }
    requires few { room.stations ≤ 16 }
    requires opened { (o : OpeningOf) × IsRoomOf o room setting.counting setting.start }
    ensures { (o : OpeningOf) → IsRoomOf o room setting.counting setting.start
        → HallEnds o [] room.stations place.now.address.now NeverFails
        (λ h held status. FileEnds place.now.journal.now (F.told files.old) (F.told files.new)
        h status)
        (AreQuiet (F.told files.old) (F.told files.new))
        (H.told hall.old) (H.told hall.new) result }
{
    let mut back = match Vec::with_capacity(alloc, passes.len()) {
        Ok(back) => back,
        Err(_) => return Status::OutOfMemory,
    };
    let text = match journal_room(alloc) {
        Ok(text) => text,
        Err(_) => return Status::OutOfMemory,
    };
    let seats = match seat_stations(alloc, passes, place.address, hall) {
        Ok(seats) => seats,
        Err(status) => return status,
    };
    let keeper = &KeepsNothing;
    let (status, left) = serve_seated(rt, alloc, &room, seats, setting, hall, gate, keeper);
    take_passes(left, &mut back);
    let entries = room.close(back);
    or_next(status, keep_journal(text, &entries, place.journal, files))
}

// The status where a station was not seated.
fn unseated(fault: HallFault) -> Status
    ensures { result ≡ unseated fault }
{
    match fault {
        HallFault::Failed => Status::NotSeated,
        HallFault::Memory => Status::OutOfMemory,
    }
}

// Opens the room of a blank, and serves the stations of a place in it.
#[tactic(auto, using(crate::proofs::HallRuns::quiet_same))]
fn serve_blank<
    R: Threads + Wait + Sync,
    F: Files,
    H: Hall,
    G: Gate + Sync,
    J: Naming<CutObject, CutPart> + Send + Sync,
>(
    rt: &R,
    alloc: Global,
    blank: RoomBlank<CutObject>,
    setting: Setting,
    place: &Venue<'_>,
    files: &mut F,
    hall: &mut H,
    gate: &G,
) -> Status
    requires table { J.table ≡ blank.journal.table }
    requires opening { J.opening ≡ blank.journal.opening }
    requires stations { J.stations ≡ blank.journal.stations }
    requires few { blank.stations ≤ 16 }
    requires opened { (o : OpeningOf) × (opening : TrackOpening)
        × (blank.journal.opening ≡ Some opening)
        × IsRoomOf o (opened_with opening blank.stations) setting.counting setting.start }
    ensures { (o : OpeningOf) (opening : TrackOpening) → blank.journal.opening ≡ Some opening
        → IsRoomOf o (opened_with opening blank.stations) setting.counting setting.start
        → HallEnds o [] blank.stations place.now.address.now NeverFails
        (λ h held status. FileEnds place.now.journal.now (F.told files.old) (F.told files.new)
        h status)
        (AreQuiet (F.told files.old) (F.told files.new))
        (H.told hall.old) (H.told hall.new) result }
{
    let (room, passes) = match Room::<CutObject, J>::open(alloc, blank) {
        Ok(opened) => opened,
        Err(_) => return Status::OutOfMemory,
    };
    serve_room(rt, alloc, room, passes, setting, place, files, hall, gate)
}

/// Serves the stations of a place, all at once, in a room that begins so, each over its line of the hall, and then puts the
/// journal's text into the file of the place.
#[tactic(auto, using(crate::proofs::HallRuns::quiet_same))]
pub fn serve_opened<R: Threads + Wait + Sync, F: Files, H: Hall, G: Gate + Sync>(
    rt: &R,
    alloc: Global,
    opening: Opening,
    place: &Venue<'_>,
    files: &mut F,
    hall: &mut H,
    gate: &G,
) -> Status
    requires sound { IsSoundOpening opening }
    requires some { 0 < length opening.tracks }
    requires stations { (0 < place.now.stations) × (place.now.stations ≤ 16) }
    ensures { HallEnds opening [] place.now.stations place.now.address.now NeverFails
        (λ h held status. FileEnds place.now.journal.now (F.told files.old) (F.told files.new)
        h status)
        (AreQuiet (F.told files.old) (F.told files.new))
        (H.told hall.old) (H.told hall.new) result }
{
    let (blank, setting) = match begin_room(alloc, opening, place.stations) {
        Ok(begun) => begun,
        Err(_) => return Status::OutOfMemory,
    };
    serve_blank::<R, F, H, G, Brand>(rt, alloc, blank, setting, place, files, hall, gate)
}
