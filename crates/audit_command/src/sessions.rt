// What was recorded of each station, held against the journal.
ghost use Rattle.std.specs.Prelude.{◌≡◌, ◌<◌, ◌≤◌, All, IfErr, IfOk, MatchOption, OnOk, Some, length, map, min, slice_get};
ghost use Rattle.line_words.specs.Blanks.{words_of};
ghost use Rattle.recorded_sessions.specs.Naming.{leads};
ghost use Rattle.recorded_sessions.specs.Places.{Says};
ghost use Rattle.recorded_sessions.specs.Recordings.{line_seen};
ghost use Rattle.reply_audits.specs.Judging.{setting_in};
ghost use Rattle.reply_audits.specs.Sessions.{IsLeft, explaining};
ghost use Rattle.audit_command.specs.Explained.{Each};
ghost use Rattle.audit_command.specs.Refused.{IsBefore, IsOfAnother, IsOwn, IsTold, IsWhy};
ghost use Rattle.audit_command.specs.Stations.{AreReady, AreTelling, IsAudited, IsExplainedIn, IsNoted, IsNumbered, IsUnseated, StopsStation, StopsStations, recording_in};

use crate::records::Station;
use crate::refusal::{AuditCode, AuditRefusal, AuditStop};
use crate::tells::{Noted, tells_of};
use cut_mirror::Walk;
use cut_steps::{CutCall, CutObject, CutPart};
use line_words::next_word;
use out_of_memory::Memory;
use recorded_sessions::{Explains, Heard, Stop, Told, audit_session, point_named};
use reply_audits::laws::rows_are_goings;
use reply_audits::{RecordedReply, RecordedRoom, asks_for};
use room_core::Entry;
use std::alloc::Global;

// What explains the replies of a station: the room and its journal.
#[derive(Clone, Copy)]
struct Session<'a> {
    alloc: Global,
    room: &'a RecordedRoom<'a>,
    opening: &'a [CutPart],
    station: &'a Station<'a>,
}

impl Explains for Session<'_> {
    ghost explains = { λ s. explaining (setting_in s.room.now) s.opening.now s.room.now.entries.now
        s.station.now.station (recording_in s.station.now).lines (recording_in s.station.now).replies };

    ghost left = { λ s. IsLeft (setting_in s.room.now) s.room.now.entries.now
        s.station.now.station (recording_in s.station.now).lines (recording_in s.station.now).replies };

    // Whether the entry at a place is the station's, of a line after those that have replies that asks for it.
    fn is_left(&self, place: usize) -> Result<bool, Memory> {
        match self.room.entries.get(place) {
            Some(entry) => is_left_by(self.alloc, self.room, self.station, place, entry),
            None => Ok(false),
        }
    }
}

// Whether the entry at a place is a station's, of a line after those that have replies that asks for it.
fn is_left_by(
    alloc: Global,
    room: &RecordedRoom<'_>,
    station: &Station<'_>,
    place: usize,
    entry: &Entry<CutCall>,
) -> Result<bool, Memory>
    requires { slice_get room.now.entries.now place ≡ Some entry.now }
    ensures { IfOk result (λ yes. Says yes (IsLeft (setting_in room.now) room.now.entries.now
        station.now.station (recording_in station.now).lines (recording_in station.now).replies
        place)) }
{
    let number = entry.number as usize;
    if entry.station != station.station || number <= station.replies.len() {
        return Ok(false);
    }
    match station.lines.get(number - 1) {
        Some(line) => asks_for(alloc, room, station.station, *line, &entry.call),
        None => Ok(false),
    }
}

// Whether this is the first word of a text.
fn leads(text: &[u8], word: &[u8]) -> bool
    ensures { result ≡ leads word.now (words_of text.now) }
{
    match next_word(text, 0) {
        Some((start, end)) => &text[start..end] == word,
        None => false,
    }
}

// Whether a reply names a point before those that its station had been told of, and is no document.
fn is_before(reply: &[u8], told: u64) -> bool
    ensures { Says result (IsBefore told reply.now) }
{
    if leads(reply, b"otio") {
        return false;
    }
    match point_named(reply) {
        Some(point) => u64::from(point) < told,
        None => false,
    }
}

// Whether the entry at a point is that of a station's line of a number.
fn is_own(
    alloc: Global,
    room: &RecordedRoom<'_>,
    row: &RecordedReply<'_>,
    point: u32,
) -> Result<bool, Memory>
    ensures { IfOk result (λ yes. Says yes (IsOwn (setting_in room.now) room.now.entries.now
        row.now.station row.now.number (line_seen row.now.line) point)) }
{
    match room.entries.get(point as usize) {
        Some(entry) if entry.station == row.station && entry.number == row.number => {
            asks_for(alloc, room, row.station, row.line, &entry.call)
        }
        _ => Ok(false),
    }
}

// Whether a reply is an `ok`, and the entry at the point that it names not its line's.
fn is_of_another(
    alloc: Global,
    room: &RecordedRoom<'_>,
    row: &RecordedReply<'_>,
) -> Result<bool, Memory>
    ensures { IfOk result (λ yes. Says yes (IsOfAnother (setting_in room.now)
        room.now.entries.now row.now.station row.now.number (line_seen row.now.line)
        row.now.reply.now)) }
{
    if !leads(row.reply, b"ok") {
        return Ok(false);
    }
    match point_named(row.reply) {
        Some(point) => Ok(!is_own(alloc, room, row, point)?),
        None => Ok(false),
    }
}

// Why a reply is not explained, where its station had been told of so many entries.
fn why(
    alloc: Global,
    room: &RecordedRoom<'_>,
    row: &RecordedReply<'_>,
    told: u64,
) -> Result<AuditCode, Memory>
    ensures { IfOk result (IsWhy (setting_in room.now) room.now.entries.now row.now.station
        row.now.number told (line_seen row.now.line) row.now.reply.now) }
{
    if is_before(row.reply, told) {
        return Ok(AuditCode::A2);
    }
    let is_other = is_of_another(alloc, room, row)?;
    Ok(if is_other {
        AuditCode::A3
    } else {
        AuditCode::A1
    })
}

// The code and the number that are told of what a session stops at.
fn refused_for(
    alloc: Global,
    room: &RecordedRoom<'_>,
    station: &Station<'_>,
    stop: Stop,
) -> Result<(AuditCode, u32), Memory>
    requires { IsNumbered station.now room.now.entries.now stop }
    ensures { IfOk result (λ told. IsTold (setting_in room.now) room.now.entries.now
        station.now.station (recording_in station.now) stop told.0 told.1) }
{
    match stop {
        Stop::Reply { number, told } => {
            let row = station.reply_at(number - 1);
            let code = why(alloc, room, &row, told)?;
            Ok((code, row.number))
        }
        Stop::Unpaired(number) => Ok((AuditCode::A4, number as u32)),
        Stop::Untold(place) => Ok((AuditCode::A5, room.entries[place].number)),
        Stop::Memory => Err(Memory),
    }
}

// Holds what was recorded of a station against the journal.
fn audit_station(
    alloc: Global,
    room: &RecordedRoom<'_>,
    opening: &[CutPart],
    station: &Station<'_>,
    tells: &[Told],
) -> Result<(), AuditStop>
    requires tells { AreTelling room.now opening.now station.now tells.now }
    requires pairs { length tells.now
        ≡ min (length station.now.lines.items) (length station.now.replies.items) }
    ensures explained { OnOk result (IsExplainedIn (setting_in room.now) opening.now
        room.now.entries.now station.now.station (recording_in station.now)) }
    ensures stop { IfErr result (StopsStation (setting_in room.now) opening.now
        room.now.entries.now station.now.station (recording_in station.now)) }
{
    rows_are_goings();
    let session = Session {
        alloc,
        room,
        opening,
        station,
    };
    let heard = Heard {
        station: station.station,
        lines: station.lines.len(),
        replies: station.replies.len(),
        is_cut: station.is_cut,
    };
    match audit_session(alloc, &session, tells, room.entries, &heard) {
        Ok(()) => Ok(()),
        Err(stop) => {
            let (code, number) = refused_for(alloc, room, station, stop)?;
            Err(AuditStop::Refused(AuditRefusal {
                code,
                station: station.station,
                number,
            }))
        }
    }
}

/// Holds what was recorded of each station against the journal, in their order.
pub(crate) fn audit_stations(
    alloc: Global,
    room: &RecordedRoom<'_>,
    opening: &[CutPart],
    walk: &mut Walk<'_, CutObject>,
    stations: &[Station<'_>],
    notes: &[Option<Noted>],
) -> Result<(), AuditStop>
    requires audited { IsAudited room.now walk.old }
    requires opening { opening.now ≡ walk.old.opening }
    requires ready { AreReady room.now.entries.now stations.now }
    requires few { length stations.now ≤ 16 }
    requires noted { All (IsNoted room.now walk.old.opening stations.now) notes.now }
    ensures explained { OnOk result (Each (IsExplainedIn (setting_in room.now) opening.now
        room.now.entries.now) 0 (map recording_in stations.now)) }
    ensures stop { IfErr result (StopsStations (setting_in room.now) opening.now
        room.now.entries.now (map recording_in stations.now)) }
{
    let mut first = 0;
    for (at, station) in stations.iter().enumerate() {
        let tells = tells_of(alloc, room, walk, stations, notes, at, first)?;
        match audit_station(alloc, room, opening, station, &tells) {
            Ok(()) => first += station.pairs(),
            Err(stop) => return Err(stop),
        }
    }
    Ok(())
}

/// The station and the number of the first entry that is of none of so many stations.
pub(crate) fn unseated(entries: &[Entry<CutCall>], count: usize) -> Option<AuditRefusal>
    ensures { MatchOption result (All (λ e. e.station < count) entries.now)
        (λ refusal. IsUnseated entries.now count refusal) }
{
    for entry in entries {
        if count <= entry.station as usize {
            return Some(AuditRefusal {
                code: AuditCode::A5,
                station: entry.station,
                number: entry.number,
            });
        }
    }
    None
}
