// Replies to questions, and to `point`.
ghost use Rattle.std.specs.Prelude.{◌≡◌, ◌≤◌, IfOk, List, length};
ghost use Rattle.cut_steps.specs.CutSteps.{KeptTrack};
ghost use Rattle.recorded_sessions.specs.Places.{Says};
ghost use Rattle.recorded_sessions.specs.Telling.{IsKnown};
ghost use Rattle.reply_audits.specs.Naming.{IsThere};
ghost use Rattle.reply_audits.specs.Points.{IsAt, answered_in};
ghost use Rattle.reply_text.specs.Sights.{sight_text_of};
ghost use Rattle.room_core.specs.History.{most_entries};
ghost use Rattle.edit_apply.specs.See.{seen_in};
ghost use Rattle.take_back.specs.Parts.{nows};
ghost use Rattle.station_sessions.specs.Rooms.{seen_of};
ghost use Rattle.station_sessions.specs.Transcript.{Point as AskedPoint, See};

use crate::judging::{RecordedReply, RecordedRoom};
use crate::points::{replies_name_points, told_if};
use crate::texts::is_text;
use cut_mirror::Walk;
use cut_room::Sight;
use cut_steps::CutObject;
use edit_calls::Ask;
use out_of_memory::{Fault, Memory};
use recorded_sessions::Told;
use reply_text::{point_text, sight_text};
use std::alloc::Global;

// Whether a reply is the one to a question that was answered so.
fn is_sight(alloc: Global, reply: &[u8], sight: &Sight<CutObject>) -> Result<bool, Memory>
    ensures { IfOk result (λ same. Says same (reply.now ≡ sight_text_of sight.now)) }
{
    let text = sight_text(alloc, sight)?;
    Ok(is_text(reply, &text))
}

// What a question is answered where a walk stands, or that there was no memory for it.
fn sight_at(
    alloc: Global,
    walk: &Walk<CutObject>,
    point: u32,
    ask: &Ask,
) -> Result<Sight<CutObject>, Memory>
    ensures { IfOk result (λ sight. sight_text_of sight
        ≡ seen_of point (seen_in walk.now.object.object.table (nows walk.now.parts) ask.now)) }
{
    match walk.see(alloc, ask) {
        Ok(seen) => Ok(Sight::Seen { point, seen }),
        Err(Fault::Refused(refusal)) => Ok(Sight::Refused { point, refusal }),
        Err(Fault::Memory) => Err(Memory),
    }
}

/// What the reply to a question tells.
pub(crate) fn told_by_ask(
    alloc: Global,
    room: &RecordedRoom,
    walk: &Walk<CutObject>,
    row: &RecordedReply,
    point: u32,
    ask: &Ask,
) -> Result<Told, Memory>
    requires { IsAt room.now walk.now row.now point }
    ensures { IfOk result (λ tell. IsKnown (answered_in room.now walk.now.opening row.now
        (See ask.now)) tell) }
{
    replies_name_points();
    let _ = walk.point();
    let sight = sight_at(alloc, walk, point, ask)?;
    let same = is_sight(alloc, row.reply, &sight)?;
    Ok(told_if(same, Told::Point(point)))
}

/// What the reply to `point` tells.
pub(crate) fn told_by_point(room: &RecordedRoom, row: &RecordedReply, point: u32) -> Told
    requires few { length room.now.entries.now ≤ most_entries }
    requires there { IsThere room.now.entries.now row.now.reply.now point }
    ensures { (opening : List KeptTrack)
        → IsKnown (answered_in room.now opening row.now AskedPoint) result }
{
    replies_name_points();
    let text = point_text(point);
    told_if(is_text(row.reply, text.as_bytes()), Told::Point(point))
}
