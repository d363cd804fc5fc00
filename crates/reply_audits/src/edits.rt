// Replies to edits, and to the taking back of edits.
ghost use Rattle.std.specs.Prelude.{◌≡◌, ◌≤◌, IfOk, List, Ok, Err, Some, length, option_map, slice_get};
ghost use Rattle.cut_room.specs.declared.answers.Answer.TheVariants as answer;
ghost use Rattle.cut_steps.specs.CutSteps.{KeptTrack};
ghost use Rattle.recorded_sessions.specs.Places.{Says};
ghost use Rattle.recorded_sessions.specs.Telling.{IsKnown};
ghost use Rattle.reply_audits.specs.Judging.{setting_in};
ghost use Rattle.reply_audits.specs.Naming.{IsThere};
ghost use Rattle.reply_audits.specs.Points.{IsAt, answered_in};
ghost use Rattle.reply_text.specs.Replies.{answer_text_of};
ghost use Rattle.room_core.specs.History.{most_entries};
ghost use Rattle.station_sessions.specs.Rooms.{room_of};
ghost use Rattle.station_sessions.specs.Transcript.{Do, answer_at};
ghost use Rattle.take_back.specs.Steps.{asked_by};

use crate::judging::{RecordedReply, RecordedRoom};
use crate::points::{replies_name_points, told_if};
use crate::texts::is_text;
use call_laws::equal_steps_are_one;
use composables::{Done, Refusal};
use cut_mirror::Walk;
use cut_room::Answer;
use cut_steps::{BackDone, BackRefusal, CutCall, CutObject};
use edit_journal::MOST_ENTRIES;
use out_of_memory::{Fault, Memory};
use recorded_sessions::Told;
use reply_text::answer_text;
use room_core::Entry;
use std::alloc::Global;

// Whether a reply is the one to an edit that was answered so.
fn is_answer(reply: &[u8], answer: &Answer<CutObject>) -> bool
    ensures { Says result (reply.now ≡ answer_text_of answer.now) }
{
    let text = answer_text(answer);
    is_text(reply, text.as_bytes())
}

// Whether an entry is the line's own, and this step.
fn is_entry(entry: &Entry<CutCall>, row: &RecordedReply, step: &CutCall) -> bool
    ensures { Says result (entry.now ≡ record {
      station = row.now.station;
      number = row.now.number;
      call = step.now;
    }) }
{
    equal_steps_are_one();
    entry.station == row.station && entry.number == row.number && entry.call == *step
}

// The entry at a point.
fn entry_at<'a>(room: &RecordedRoom<'a>, point: u32) -> Option<&'a Entry<CutCall>>
    ensures { option_map (λ e. e.now) result ≡ slice_get room.now.entries.now point }
{
    room.entries.get(point as usize)
}

// Whether the entry at a point is the line's own, and this step.
fn is_own(room: &RecordedRoom, row: &RecordedReply, point: u32, step: &CutCall) -> bool
    ensures { Says result (slice_get room.now.entries.now point ≡ Some (record {
      station = row.now.station;
      number = row.now.number;
      call = step.now;
    })) }
{
    match entry_at(room, point) {
        Some(entry) => is_entry(entry, row, step),
        None => false,
    }
}

// Whether the journal has its most entries, and as many stand before a point.
fn is_full(room: &RecordedRoom, point: u32) -> bool
    ensures { Says result ((length room.now.entries.now ≡ most_entries) × (point ≡ most_entries)) }
{
    room.entries.len() == MOST_ENTRIES as usize && point == MOST_ENTRIES
}

// Whether a reply says at a point that the journal is full, and it is.
fn is_full_told(room: &RecordedRoom, row: &RecordedReply, point: u32) -> bool
    ensures { Says result
        (((length room.now.entries.now ≡ most_entries) × (point ≡ most_entries))
        × (row.now.reply.now ≡ answer_text_of (answer.Full most_entries))) }
{
    is_full(room, point)
        && is_answer(
            row.reply,
            &Answer::Full {
                point: MOST_ENTRIES,
            },
        )
}

// What the reply to an edit tells that applies at the point named.
fn told_by_done(
    room: &RecordedRoom,
    row: &RecordedReply,
    point: u32,
    step: &CutCall,
    done: BackDone<Done>,
) -> Told
    requires few { length room.now.entries.now ≤ most_entries }
    requires there { IsThere room.now.entries.now row.now.reply.now point }
    ensures { (opening : List KeptTrack)
        → answer_at (room_of (setting_in room.now)) opening room.now.entries.now point step.now
        ≡ Some (Ok done)
        → IsKnown (answered_in room.now opening row.now (Do step.now)) result }
{
    replies_name_points();
    if is_own(room, row, point, step) {
        let same = is_answer(row.reply, &Answer::Done { point, done });
        return told_if(same, Told::Own(point));
    }
    told_if(is_full_told(room, row, point), Told::Point(point))
}

// What the reply to an edit tells that does not apply at the point named.
fn told_by_refusal(
    room: &RecordedRoom,
    row: &RecordedReply,
    point: u32,
    step: &CutCall,
    refusal: BackRefusal<Refusal>,
) -> Told
    requires few { length room.now.entries.now ≤ most_entries }
    requires there { IsThere room.now.entries.now row.now.reply.now point }
    ensures { (opening : List KeptTrack)
        → answer_at (room_of (setting_in room.now)) opening room.now.entries.now point step.now
        ≡ Some (Err refusal)
        → IsKnown (answered_in room.now opening row.now (Do step.now)) result }
{
    replies_name_points();
    let same = is_answer(row.reply, &Answer::Refused { point, refusal });
    told_if(same, Told::Point(point))
}

/// What the reply to an edit tells, which its own station asks for.
pub(crate) fn told_by_edit(
    alloc: Global,
    room: &RecordedRoom,
    walk: &Walk<CutObject>,
    row: &RecordedReply,
    point: u32,
    step: CutCall,
) -> Result<Told, Memory>
    requires { IsAt room.now walk.now row.now point }
    ensures { IfOk result (λ tell. IsKnown (answered_in room.now walk.now.opening row.now
        (Do (asked_by row.now.station step))) tell) }
{
    let _ = walk.point();
    let step = step.asked_by(row.station);
    match walk.answer(alloc, &step) {
        Ok(done) => Ok(told_by_done(room, row, point, &step, done)),
        Err(Fault::Refused(refusal)) => Ok(told_by_refusal(room, row, point, &step, refusal)),
        Err(Fault::Memory) => Err(Memory),
    }
}
