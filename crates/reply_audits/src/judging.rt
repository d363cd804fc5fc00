// What a reply tells that was recorded.
ghost use Rattle.std.specs.Prelude.{◌≡◌, IfOk, List, Ok};
ghost use Rattle.cut_steps.specs.CutSteps.{KeptTrack};
ghost use Rattle.recorded_sessions.specs.Places.{Says};
ghost use Rattle.recorded_sessions.specs.Recordings.{line_seen};
ghost use Rattle.recorded_sessions.specs.Telling.{IsKnown};
ghost use Rattle.reply_audits.specs.Judging.{IsIn, StandsAt, explained_by, setting_in};
ghost use Rattle.reply_audits.specs.Points.{IsAt, IsMeaning, IsMemoryTold, answered_in};
ghost use Rattle.reply_text.specs.Replies.{fault_of};
ghost use Rattle.station_sessions.specs.Rooms.{wish_in};
ghost use Rattle.station_sessions.specs.Transcript.{Bad, BearsNone};

use crate::documents::told_by_document;
use crate::edits::told_by_edit;
use crate::meanings::{meaning_of, takes_memory};
use crate::news::told_by_news;
use crate::points::{point_there, replies_name_points, told_if};
use crate::questions::{told_by_ask, told_by_point};
use crate::texts::is_text;
use cut_mirror::Walk;
use cut_steps::{CutCall, CutObject};
use line_table::{Line, LineFault};
use out_of_memory::Memory;
use recorded_sessions::Told;
use reply_text::fault_text;
use room_core::Entry;
use std::alloc::Global;
use timecode12::Counting;

/// What was recorded of a room: what stays as it is in it, and its journal.
#[derive(Clone, Copy)]
pub struct RecordedRoom<'a> {
    /// What the room keeps, with its table.
    pub object: &'a CutObject,
    /// How it counts frames.
    pub counting: Counting,
    /// The frame at which its record starts.
    pub start: u32,
    /// The entries of its journal.
    pub entries: &'a [Entry<CutCall>],
}

/// A line as it was recorded, with its reply.
#[derive(Clone, Copy)]
pub struct RecordedReply<'a> {
    /// The station that sent the line.
    pub station: u32,
    /// The line's number, from 1.
    pub number: u32,
    /// The line; `None` where it was too long.
    pub line: Option<&'a [u8]>,
    /// The reply to it.
    pub reply: &'a [u8],
    /// No entry of the journal bears the station and the number.
    pub has_no_entry: bool,
}

// Whether a reply says that there was no memory, which its line may find.
fn is_memory_told(room: &RecordedRoom, row: &RecordedReply, read: &Result<Line, LineFault>) -> bool
    requires meaning { IsMeaning room.now row.now read.now }
    requires entry { Says row.now.has_no_entry
        (BearsNone room.now.entries.now row.now.station row.now.number) }
    ensures { Says result (IsMemoryTold room.now row.now) }
{
    is_text(row.reply, b"memory") && takes_memory(room.object, row.line, read) && row.has_no_entry
}

// What the reply to a line that is none of the table tells.
fn told_by_fault(room: &RecordedRoom, row: &RecordedReply, fault: &LineFault) -> Told
    ensures { (opening : List KeptTrack)
        → IsKnown (answered_in room.now opening row.now (Bad (fault_of fault.now))) result }
{
    let text = fault_text(fault);
    told_if(is_text(row.reply, text.as_bytes()), Told::Same)
}

// What the reply to a line of the table tells, at the point that it names.
fn told_there(
    alloc: Global,
    room: &RecordedRoom,
    walk: &Walk<CutObject>,
    row: &RecordedReply,
    point: u32,
    line: Line,
) -> Result<Told, Memory>
    requires { IsAt room.now walk.now row.now point }
    ensures { IfOk result (λ tell. IsKnown (answered_in room.now walk.now.opening row.now
        (wish_in row.now.station (Ok line))) tell) }
{
    let _ = walk.point();
    match line {
        Line::Edit(step) => told_by_edit(alloc, room, walk, row, point, step),
        Line::Ask(ask) => told_by_ask(alloc, room, walk, row, point, &ask),
        Line::Point => Ok(told_by_point(room, row, point)),
        Line::Otio(asked) => told_by_document(alloc, room, walk, row, point, asked),
        Line::News(place) => told_by_news(alloc, room, row, point, place),
    }
}

// What the reply to a line tells that was read as this, as an answer to what it asks for.
fn told_as_answer(
    alloc: Global,
    room: &RecordedRoom,
    walk: &Walk<CutObject>,
    row: &RecordedReply,
    read: Result<Line, LineFault>,
) -> Result<Told, Memory>
    requires walk { IsIn room.now walk.now }
    requires point { StandsAt walk.now row.now.reply.now }
    ensures { IfOk result (λ tell. IsKnown (answered_in room.now walk.now.opening row.now
        (wish_in row.now.station read)) tell) }
{
    replies_name_points();
    let _ = walk.point();
    match read {
        Ok(line) => match point_there(room, row) {
            Some(point) => told_there(alloc, room, walk, row, point, line),
            None => Ok(Told::Nothing),
        },
        Err(fault) => Ok(told_by_fault(room, row, &fault)),
    }
}

/// What a reply tells its station. A walk along the journal stands at the point that the reply names
/// (`recorded_sessions::point_named`), where there are so many entries; else it may stand anywhere.
pub fn told_by(
    alloc: Global,
    room: &RecordedRoom,
    walk: &Walk<CutObject>,
    row: &RecordedReply,
) -> Result<Told, Memory>
    requires walk { IsIn room.now walk.now }
    requires point { StandsAt walk.now row.now.reply.now }
    requires entry { Says row.now.has_no_entry
        (BearsNone room.now.entries.now row.now.station row.now.number) }
    ensures { IfOk result (λ tell. IsKnown (explained_by (setting_in room.now) walk.now.opening
        room.now.entries.now row.now.station row.now.number (line_seen row.now.line)
        row.now.reply.now) tell) }
{
    replies_name_points();
    let _ = walk.point();
    let read = meaning_of(alloc, room, row.line)?;
    if is_memory_told(room, row, &read) {
        return Ok(Told::Same);
    }
    told_as_answer(alloc, room, walk, row, read)
}
