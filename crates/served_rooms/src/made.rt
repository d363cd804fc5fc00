// A generated session: four stations are served at once over lines in memory, and the summary of the journal of their
// closed room is put.
ghost use Rattle.std.specs.Prelude.{◌≡◌, ◌<◌, ◌≤◌};
ghost use Rattle.command_files.specs.Ports.{change, output_told};
ghost use Rattle.edit_journal.specs.Turns.{AreFresh};
ghost use Rattle.made_sessions.specs.Sessions.{MakeEnds};

use crate::stations::{SeatedStations, seat_all, serve_seated, take_passes};
use command_files::Status;
use cut_room::{Room, RoomBlank};
use cut_steps::{CutCall, CutObject, CutPart};
use edit_journal::{Naming, Pass};
use line_words::Memory;
use made_sessions::{TRACKS, made_opening, put_summary, script_text};
use room_core::Entry;
use room_halls::{Hall, SureHall, SurePair};
use room_keepers::KeepsNothing;
use room_ports::{Gate, Sink, SureSink, SureSource};
use station_sessions::{Setting, begin_room};
use std::alloc::Global;
use std::marker::Brand;
use std::sync::Wait;
use std::thread::Threads;

// Serves the stations of a room that has just been opened, all at once, over the lines of a hall, and closes the room: its
// journal, or `None` where there was no memory to begin.
fn serve_lines<
    R: Threads + Wait + Sync,
    H: Hall,
    G: Gate + Sync,
    J: Naming<CutObject, CutPart> + Send + Sync,
>(
    rt: &R,
    alloc: Global,
    room: Room<CutObject, J>,
    passes: Vec<Pass<CutObject, J>>,
    setting: Setting,
    hall: &mut H,
    gate: &G,
) -> Option<Vec<Entry<CutCall>>>
    requires room { J.opening ≡ Some (room.object, room.parts) }
    requires passes { AreFresh J.opening room.stations passes.items }
{
    let mut back = match Vec::with_capacity(alloc, passes.len()) {
        Ok(back) => back,
        Err(_) => return None,
    };
    let count = passes.len();
    let mut seats = Vec::with_capacity(alloc, count).ok()?;
    let left = Vec::with_capacity(alloc, count).ok()?;
    match seat_all(alloc, hall, passes, &mut seats) {
        Ok(()) => {
            let (seats, keeper) = (SeatedStations { seats, left }, &KeepsNothing);
            let (_, left) = serve_seated(rt, alloc, &room, seats, setting, hall, gate, keeper);
            take_passes(left, &mut back);
            Some(room.close(back))
        }
        Err(_) => None,
    }
}

// Opens the room of a blank and serves its stations: the journal, or `None` where there was no memory to begin.
fn serve_blank_lines<
    R: Threads + Wait + Sync,
    H: Hall,
    G: Gate + Sync,
    J: Naming<CutObject, CutPart> + Send + Sync,
>(
    rt: &R,
    alloc: Global,
    blank: RoomBlank<CutObject>,
    setting: Setting,
    hall: &mut H,
    gate: &G,
) -> Option<Vec<Entry<CutCall>>>
    requires table { J.table ≡ blank.journal.table }
    requires opening { J.opening ≡ blank.journal.opening }
    requires stations { J.stations ≡ blank.journal.stations }
    requires few { blank.stations ≤ 16 }
{
    match Room::<CutObject, J>::open(alloc, blank) {
        Ok((room, passes)) => serve_lines(rt, alloc, room, passes, setting, hall, gate),
        Err(_) => None,
    }
}

// Opens the room of a generated session and serves its stations over the lines of a hall.
fn serve_session_lines<R: Threads + Wait + Sync, H: Hall, G: Gate + Sync>(
    rt: &R,
    alloc: Global,
    hall: &mut H,
    gate: &G,
) -> Option<Vec<Entry<CutCall>>> {
    let opening = match made_opening(alloc) {
        Ok(opening) => opening,
        Err(_) => return None,
    };
    match begin_room(alloc, opening, TRACKS) {
        Ok((blank, setting)) => {
            serve_blank_lines::<R, H, G, Brand>(rt, alloc, blank, setting, hall, gate)
        }
        Err(_) => None,
    }
}

// The line of a station, whose input is its script.
fn script_line(alloc: Global, number: u32, count: u32, station: u32) -> Result<SurePair, Memory>
    requires { station < 32 }
{
    let mut pieces = Vec::new(alloc);
    pieces.push(script_text(alloc, number, count, station)?)?;
    Ok(SurePair {
        input: SureSource::new(pieces),
        output: SureSink::untold(),
    })
}

// The hall of a generated session: each station has the line of its script.
fn script_hall(alloc: Global, number: u32, count: u32) -> Result<SureHall, Memory> {
    let mut lines = Vec::new(alloc);
    for station in 0..TRACKS {
        lines.push(script_line(alloc, number, count, station)?)?;
    }
    Ok(SureHall::new(alloc, lines))
}

/// Serves the four stations of a generated session at once, each over the line of its script, closes their room and puts
/// the summary of what its journal comes to.
pub fn make_session<R: Threads + Wait + Sync, K: Sink, G: Gate + Sync>(
    rt: &R,
    alloc: Global,
    number: u32,
    count: u32,
    output: &mut K,
    gate: &G,
) -> Status
    requires { count ≤ 20000 }
    ensures { MakeEnds number count
        (change (output_told K.taken K.write_faults) output.old output.new) result }
{
    let mut hall = match script_hall(alloc, number, count) {
        Ok(hall) => hall,
        Err(_) => return Status::OutOfMemory,
    };
    match serve_session_lines(rt, alloc, &mut hall, gate) {
        Some(entries) => put_summary(alloc, entries, number, count, output),
        None => Status::OutOfMemory,
    }
}
