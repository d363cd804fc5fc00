// What each reply tells its station.
ghost use Rattle.std.specs.Prelude.{◌≡◌, ◌<◌, ◌≤◌, Some, All, IfOk, IfSome, OnOk, length, min, slice_get};
ghost use Rattle.cut_mirror.specs.Walks.{IsAlong};
ghost use Rattle.recorded_sessions.specs.Telling.{IsKnown};
ghost use Rattle.recorded_sessions.specs.Recordings.{line_seen};
ghost use Rattle.recorded_sessions.specs.Places.{Says};
ghost use Rattle.reply_audits.specs.Judging.{explained_by, setting_in};
ghost use Rattle.station_sessions.specs.Transcript.{BearsNone};
ghost use Rattle.audit_command.specs.Stations.{AreReady, AreTelling, IsAudited, IsNoted, IsTelling};
ghost use Rattle.audit_command.specs.declared.order.TheConstants.{MAX_FIRST};
ghost use Rattle.audit_command.specs.declared.records.Station.{Station};

use crate::order::Place;
use crate::records::Station;
use cut_mirror::{Walk, WalkFault};
use cut_steps::CutObject;
use out_of_memory::Memory;
use recorded_sessions::{Told, point_named};
use reply_audits::laws::rows_are_goings;
use reply_audits::{RecordedReply, RecordedRoom, told_by};
use std::alloc::Global;

/// What a reply tells: that of a station to its line behind so many.
#[derive(Clone, Copy)]
pub(crate) struct Noted {
    pub at: usize,
    pub index: usize,
    pub tell: Told,
}

// Goes to a point of a journal, each entry of which applies.
fn go_to(
    alloc: Global,
    room: &RecordedRoom<'_>,
    walk: &mut Walk<'_, CutObject>,
    point: u32,
) -> Result<(), Memory>
    requires audited { IsAudited room.now walk.old }
    requires within { point ≤ length room.now.entries.now }
    ensures along { IsAlong walk.old walk.new }
    ensures there { OnOk result (walk.new.point ≡ point) }
{
    match walk.go_to(alloc, point) {
        Ok(()) => Ok(()),
        Err(WalkFault::Refused(_)) => unreachable!(),
        Err(WalkFault::Memory) => Err(Memory),
    }
}

// What a reply tells, at the point that it names.
fn judge(
    alloc: Global,
    room: &RecordedRoom<'_>,
    walk: &mut Walk<'_, CutObject>,
    row: &RecordedReply<'_>,
) -> Result<Told, Memory>
    requires audited { IsAudited room.now walk.old }
    requires entry { Says row.now.has_no_entry
        (BearsNone room.now.entries.now row.now.station row.now.number) }
    ensures along { IsAlong walk.old walk.new }
    ensures tell { IfOk result (λ tell. IsKnown (explained_by (setting_in room.now) walk.old.opening
        room.now.entries.now row.now.station row.now.number (line_seen row.now.line)
        row.now.reply.now) tell) }
{
    match point_named(row.reply) {
        Some(point) if point as usize <= room.entries.len() => go_to(alloc, room, walk, point)?,
        _ => {}
    }
    told_by(alloc, room, walk, row)
}

// What the reply of a station tells.
fn judge_at(
    alloc: Global,
    room: &RecordedRoom<'_>,
    walk: &mut Walk<'_, CutObject>,
    stations: &[Station<'_>],
    at: usize,
    index: usize,
) -> Result<Told, Memory>
    requires audited { IsAudited room.now walk.old }
    requires ready { AreReady room.now.entries.now stations.now }
    requires there { at < length stations.now }
    requires line { (s : Station) → slice_get stations.now at ≡ Some s
        → index < min (length s.lines.items) (length s.replies.items) }
    ensures along { IsAlong walk.old walk.new }
    ensures tell { IfOk result (λ tell. (s : Station) → slice_get stations.now at ≡ Some s
        → IsTelling room.now walk.old.opening s index tell) }
{
    rows_are_goings();
    let row = stations[at].reply_at(index);
    judge(alloc, room, walk, &row)
}

// What the reply at a place tells, where there is such a station and such a line.
fn note_at(
    alloc: Global,
    room: &RecordedRoom<'_>,
    walk: &mut Walk<'_, CutObject>,
    stations: &[Station<'_>],
    place: &Place,
) -> Result<Option<Noted>, Memory>
    requires audited { IsAudited room.now walk.old }
    requires ready { AreReady room.now.entries.now stations.now }
    ensures along { IsAlong walk.old walk.new }
    ensures noted { IfOk result (IsNoted room.now walk.old.opening stations.now) }
{
    let (at, index) = (place.at, place.index);
    if stations.len() <= at || stations[at].pairs() <= index {
        return Ok(None);
    }
    let tell = judge_at(alloc, room, walk, stations, at, index)?;
    Ok(Some(Noted { at, index, tell }))
}

/// Notes what replies tell, each in its slot, in the order of these places.
pub(crate) fn note_all(
    alloc: Global,
    room: &RecordedRoom<'_>,
    walk: &mut Walk<'_, CutObject>,
    stations: &[Station<'_>],
    places: &[Place],
    count: usize,
) -> Result<Vec<Option<Noted>>, Memory>
    requires audited { IsAudited room.now walk.old }
    requires ready { AreReady room.now.entries.now stations.now }
    ensures along { IsAlong walk.old walk.new }
    ensures noted { IfOk result (λ notes. All (IsNoted room.now walk.old.opening stations.now)
        notes.items) }
{
    let mut notes = vec![in alloc; None; count]?;
    for place in places {
        let noted = note_at(alloc, room, walk, stations, place)?;
        if place.slot < notes.len() {
            notes[place.slot] = noted;
        }
    }
    Ok(notes)
}

// What was noted in a slot, where it is of this reply.
fn noted_in(notes: &[Option<Noted>], slot: usize, at: usize, index: usize) -> Option<Told>
    ensures { IfSome result (λ tell. slice_get notes.now slot
        ≡ Some (Some (record { at = at; index = index; tell = tell }))) }
{
    match notes.get(slot) {
        Some(Some(noted)) if noted.at == at && noted.index == index => Some(noted.tell),
        _ => None,
    }
}

// What the reply of a station tells: what was noted of it, or else it is judged here.
fn tell_of(
    alloc: Global,
    room: &RecordedRoom<'_>,
    walk: &mut Walk<'_, CutObject>,
    stations: &[Station<'_>],
    notes: &[Option<Noted>],
    slot: usize,
    at: usize,
    index: usize,
) -> Result<Told, Memory>
    requires audited { IsAudited room.now walk.old }
    requires ready { AreReady room.now.entries.now stations.now }
    requires noted { All (IsNoted room.now walk.old.opening stations.now) notes.now }
    requires there { at < length stations.now }
    requires line { (s : Station) → slice_get stations.now at ≡ Some s
        → index < min (length s.lines.items) (length s.replies.items) }
    ensures along { IsAlong walk.old walk.new }
    ensures tell { IfOk result (λ tell. (s : Station) → slice_get stations.now at ≡ Some s
        → IsTelling room.now walk.old.opening s index tell) }
{
    match noted_in(notes, slot, at, index) {
        Some(tell) => Ok(tell),
        None => judge_at(alloc, room, walk, stations, at, index),
    }
}

/// What each reply of a station tells, whose slots begin with the first. A reply that was not noted is judged here.
pub(crate) fn tells_of(
    alloc: Global,
    room: &RecordedRoom<'_>,
    walk: &mut Walk<'_, CutObject>,
    stations: &[Station<'_>],
    notes: &[Option<Noted>],
    at: usize,
    first: usize,
) -> Result<Vec<Told>, Memory>
    requires audited { IsAudited room.now walk.old }
    requires ready { AreReady room.now.entries.now stations.now }
    requires noted { All (IsNoted room.now walk.old.opening stations.now) notes.now }
    requires there { at < length stations.now }
    requires few { first ≤ MAX_FIRST }
    ensures along { IsAlong walk.old walk.new }
    ensures pairs { IfOk result (λ tells. (s : Station) → slice_get stations.now at ≡ Some s
        → length tells.items ≡ min (length s.lines.items) (length s.replies.items)) }
    ensures tells { IfOk result (λ tells. (s : Station) → slice_get stations.now at ≡ Some s
        → AreTelling room.now walk.old.opening s tells.items) }
{
    let mut tells = Vec::new(alloc);
    for index in 0..stations[at].pairs() {
        let slot = first + index;
        let tell = tell_of(alloc, room, walk, stations, notes, slot, at, index)?;
        tells.push(tell)?;
    }
    Ok(tells)
}
