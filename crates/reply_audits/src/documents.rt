// Replies with the document of a cut.
ghost use Rattle.std.specs.Prelude.{◌≡◌, ◌++◌, IfOk, codes, decimal};
ghost use Rattle.recorded_sessions.specs.Places.{Says};
ghost use Rattle.recorded_sessions.specs.Telling.{IsKnown};
ghost use Rattle.reply_audits.specs.Judging.{setting_in};
ghost use Rattle.reply_audits.specs.Points.{IsAt, answered_in};
ghost use Rattle.station_sessions.specs.DocumentReplies.{document_reply};
ghost use Rattle.station_sessions.specs.Rooms.{document_of};
ghost use Rattle.station_sessions.specs.Transcript.{Write};
ghost use Rattle.take_back.specs.Parts.{nows};

use crate::judging::{RecordedReply, RecordedRoom};
use crate::points::{replies_name_points, told_if};
use crate::texts::{is_joined, is_refusal};
use composables::Track;
use cut_mirror::Walk;
use cut_steps::{CutObject, CutPart, nows_of};
use otio_json::{WriteFault, write_timeline};
use out_of_memory::Memory;
use protocol_parts::Short;
use recorded_sessions::Told;
use std::alloc::Global;

// Whether a reply is the one with this document, which stands after so many entries.
fn is_document_text(reply: &[u8], point: u32, text: &[u8]) -> bool
    ensures { Says result (reply.now
        ≡ codes "otio " ++ (decimal point ++ (codes " " ++ text.now))) }
{
    let mut head = Short::new();
    head.push(b"otio ");
    head.push_number(point);
    head.push(b" ");
    is_joined(reply, head.as_bytes(), text)
}

// Whether a reply is the one with the document of these tracks, or that it is too long.
fn is_document_of(
    alloc: Global,
    room: &RecordedRoom,
    reply: &[u8],
    point: u32,
    tracks: &[Track],
) -> Result<bool, Memory>
    ensures { IfOk result (λ same. Says same (reply.now
        ≡ document_reply point (document_of (setting_in room.now) tracks.now))) }
{
    match write_timeline(
        alloc,
        &room.object.object.table,
        tracks,
        &room.counting,
        room.start,
    ) {
        Ok(text) => Ok(is_document_text(reply, point, &text)),
        Err(WriteFault::TooLarge) => Ok(is_refusal(reply, point, b" V4")),
        Err(WriteFault::Memory) => Err(Memory),
    }
}

// Whether a reply is the one with the document of this cut.
fn is_document(
    alloc: Global,
    room: &RecordedRoom,
    reply: &[u8],
    point: u32,
    parts: &[CutPart],
) -> Result<bool, Memory>
    ensures { IfOk result (λ same. Says same (reply.now
        ≡ document_reply point (document_of (setting_in room.now) (nows parts.now)))) }
{
    let tracks = nows_of(alloc, &room.object.object, parts)?;
    is_document_of(alloc, room, reply, point, &tracks)
}

/// What the reply to a wish for the document after so many entries tells.
pub(crate) fn told_by_document(
    alloc: Global,
    room: &RecordedRoom,
    walk: &Walk<CutObject>,
    row: &RecordedReply,
    point: u32,
    asked: u32,
) -> Result<Told, Memory>
    requires { IsAt room.now walk.now row.now point }
    ensures { IfOk result (λ tell. IsKnown (answered_in room.now walk.now.opening row.now
        (Write asked)) tell) }
{
    replies_name_points();
    let _ = walk.point();
    if point < asked {
        let same = is_refusal(row.reply, point, b" V3");
        return Ok(told_if(same, Told::Point(point)));
    }
    if asked < point {
        return Ok(Told::Nothing);
    }
    let same = is_document(alloc, room, row.reply, point, walk.parts())?;
    Ok(told_if(same, Told::Least(point)))
}
