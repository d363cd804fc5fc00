// Replies with the entry at a place.
ghost use Rattle.std.specs.Prelude.{◌≡◌, ◌≤◌, ◌++◌, IfOk, List, OnOk, length, option_map, slice_get, take};
ghost use Rattle.cut_steps.specs.CutSteps.{KeptTrack};
ghost use Rattle.journal_text.specs.NewsTexts.{news_text_of, there_text};
ghost use Rattle.recorded_sessions.specs.Places.{Says};
ghost use Rattle.recorded_sessions.specs.Telling.{IsKnown};
ghost use Rattle.reply_audits.specs.Naming.{IsThere};
ghost use Rattle.reply_audits.specs.Points.{answered_in};
ghost use Rattle.room_core.specs.History.{most_entries};
ghost use Rattle.station_sessions.specs.Transcript.{News};

use crate::judging::{RecordedReply, RecordedRoom};
use crate::points::{replies_name_points, told_if};
use crate::texts::{is_refusal, is_text};
use cut_steps::CutCall;
use journal_text::entry_text;
use out_of_memory::Memory;
use protocol_parts::{put, put_number};
use recorded_sessions::Told;
use room_core::Entry;
use std::alloc::Global;

// The entry at a place, among the first so many.
fn entry_at(entries: &[Entry<CutCall>], place: u32, point: u32) -> Option<&Entry<CutCall>>
    requires { point ≤ length entries.now }
    ensures { option_map (λ e. e.now) result ≡ slice_get (take point entries.now) place }
{
    let (front, _) = entries.split_at(point as usize);
    front.get(place as usize)
}

// Adds the entry, where there is one.
fn put_there(
    alloc: Global,
    text: &mut Vec<u8>,
    entry: Option<&Entry<CutCall>>,
) -> Result<(), Memory>
    ensures { OnOk result (text.new.items
        ≡ text.old.items ++ there_text (option_map (λ e. e.now) entry.entry)) }
{
    match entry {
        Some(entry) => {
            put(text, b" ")?;
            put(text, &entry_text(alloc, entry)?)
        }
        None => Ok(()),
    }
}

// The reply with the entry at a place, where there are so many entries.
fn news_text(
    alloc: Global,
    entries: &[Entry<CutCall>],
    place: u32,
    point: u32,
) -> Result<Vec<u8>, Memory>
    requires { point ≤ length entries.now }
    ensures { IfOk result (λ text. text.items
        ≡ news_text_of place point (slice_get (take point entries.now) place)) }
{
    let mut text = Vec::new(alloc);
    put_number(&mut text, b"news ", place)?;
    put_number(&mut text, b" ", point)?;
    put_there(alloc, &mut text, entry_at(entries, place, point))?;
    Ok(text)
}

/// What the reply to a wish for the entry at a place tells.
pub(crate) fn told_by_news(
    alloc: Global,
    room: &RecordedRoom,
    row: &RecordedReply,
    point: u32,
    place: u32,
) -> Result<Told, Memory>
    requires few { length room.now.entries.now ≤ most_entries }
    requires there { IsThere room.now.entries.now row.now.reply.now point }
    ensures { IfOk result (λ tell. (opening : List KeptTrack)
        → IsKnown (answered_in room.now opening row.now (News place)) tell) }
{
    replies_name_points();
    if point < place {
        let same = is_refusal(row.reply, point, b" V3");
        return Ok(told_if(same, Told::Point(point)));
    }
    let text = news_text(alloc, room.entries, place, point)?;
    Ok(told_if(is_text(row.reply, &text), Told::Point(point)))
}
