// How the command ends for what was recorded.
ghost use Rattle.std.specs.Prelude.{◌≡◌, ◌≤◌, IfErr, IfOk, OnOk, length, map};
ghost use Rattle.command_files.specs.Ports.{change, output_told};
ghost use Rattle.reply_audits.specs.Judging.{setting_in};
ghost use Rattle.audit_command.specs.Recordings.{replies_in};
ghost use Rattle.audit_command.specs.RefusalLines.{legal_line};
ghost use Rattle.audit_command.specs.Stations.{AreReady, IsAudited, IsWellIn, LineEnds, StopsAudit, recording_in, recording_told};

use crate::order::places_of;
use crate::records::{RecordTexts, Station};
use crate::refusal::AuditStop;
use crate::sessions::{audit_stations, unseated};
use crate::stations::station_in;
use crate::tells::note_all;
use command_files::{Status, end_with};
use cut_mirror::Walk;
use cut_steps::{CutCall, CutObject, CutPart};
use itoa::Buffer;
use out_of_memory::Memory;
use protocol_parts::Short;
use reply_audits::RecordedRoom;
use room_core::Entry;
use room_ports::Sink;
use std::alloc::Global;

// What was recorded of all stations, beside a journal.
fn stations_in<'a>(
    alloc: Global,
    entries: &[Entry<CutCall>],
    texts: &'a [RecordTexts],
) -> Result<Vec<Station<'a>>, Memory>
    requires { length texts.now ≤ 16 }
    ensures ready { IfOk result (λ stations. AreReady entries.now stations.items) }
    ensures recorded { IfOk result (λ stations. map recording_in stations.items
        ≡ map recording_told texts.now) }
{
    let mut stations = Vec::new(alloc);
    for (at, record) in texts.iter().enumerate() {
        stations.push(station_in(alloc, entries, at as u32, record)?)?;
    }
    Ok(stations)
}

// Holds what was recorded of all stations against the journal.
fn audit_recorded(
    alloc: Global,
    room: &RecordedRoom<'_>,
    opening: &[CutPart],
    walk: &mut Walk<'_, CutObject>,
    stations: &[Station<'_>],
) -> Result<(), AuditStop>
    requires audited { IsAudited room.now walk.old }
    requires opening { opening.now ≡ walk.old.opening }
    requires ready { AreReady room.now.entries.now stations.now }
    requires few { length stations.now ≤ 16 }
    ensures well { OnOk result (IsWellIn (setting_in room.now) opening.now
        room.now.entries.now (map recording_in stations.now)) }
    ensures stop { IfErr result (StopsAudit (setting_in room.now) opening.now
        room.now.entries.now (map recording_in stations.now)) }
{
    let (places, slots) = places_of(alloc, stations, room.entries.len())?;
    let notes = note_all(alloc, room, walk, stations, &places, slots)?;
    audit_stations(alloc, room, opening, walk, stations, &notes)?;
    match unseated(room.entries, stations.len()) {
        Some(refusal) => Err(AuditStop::Refused(refusal)),
        None => Ok(()),
    }
}

// How many replies were recorded.
fn replies_in(stations: &[Station<'_>]) -> usize
    requires { length stations.now ≤ 16 }
    ensures { result ≡ replies_in (map recording_in stations.now) }
{
    let mut count = 0;
    for station in stations {
        count += station.replies.len();
    }
    count
}

// The line that says of how many entries and replies all are explained.
fn legal_line(entries: usize, replies: usize) -> Short
    ensures { result ≡ legal_line entries replies }
{
    let mut buffer = Buffer::new();
    let mut line = Short::new();
    line.push(b"legal ");
    line.push(buffer.format(entries).as_bytes());
    line.push(b" ");
    line.push(buffer.format(replies).as_bytes());
    line.push(b"\n");
    line
}

/// Audits what was recorded of a room's stations in these texts, and puts on the output what comes of it.
pub(crate) fn end_audit<K: Sink>(
    alloc: Global,
    room: &RecordedRoom<'_>,
    opening: &[CutPart],
    walk: &mut Walk<'_, CutObject>,
    texts: &[RecordTexts],
    output: &mut K,
) -> Status
    requires audited { IsAudited room.now walk.old }
    requires opening { opening.now ≡ walk.old.opening }
    requires few { length texts.now ≤ 16 }
    ensures { LineEnds (setting_in room.now) opening.now room.now.entries.now
        (map recording_told texts.now)
        (change (output_told K.taken K.write_faults) output.old output.new) result }
{
    let stations = match stations_in(alloc, room.entries, texts) {
        Ok(stations) => stations,
        Err(_) => return Status::OutOfMemory,
    };
    match audit_recorded(alloc, room, opening, walk, &stations) {
        Ok(()) => {
            let line = legal_line(room.entries.len(), replies_in(&stations));
            end_with(Status::Done, line.as_bytes(), output)
        }
        Err(AuditStop::Refused(refusal)) => {
            end_with(Status::Refused, refusal.line().as_bytes(), output)
        }
        Err(AuditStop::Memory) => Status::OutOfMemory,
    }
}
