// Why the events of a cut have no list, but for the names of their reels.
ghost use Rattle.std.specs.Prelude.{◌≡◌, ◌+◌, ◌<◌, ◌≤◌, ◌^◌, None, Some, IfErr, OnOk, length};
ghost use Rattle.composables.specs.declared.TheConstants.{MAX_FRAMES};
ghost use Rattle.edl_write.specs.Limits.{AreShort};
ghost use Rattle.edl_write.specs.Lines.{line_times};
ghost use Rattle.edl_write.specs.ListEvents.{left_times, source_of, times_of, times_of_all};
ghost use Rattle.edl_write.specs.Refusals.{IsRefusedBefore, first_past, long_in, long_on, over_999};

use crate::fault::ListFault;
use crate::ordering::{ChannelSegment, rank};
use edl_events::Channel;
use frame_meaning::Side;

/// The most frames of a dissolve, and the most events.
pub const MOST: u32 = 999;

/// Looks at these events: at the lengths of dissolves, at the count of events, and at the times, against a day.
pub fn check(events: &[ChannelSegment], day: u32, start: u32) -> Result<(), ListFault>
    requires short { AreShort events.now }
    requires day { day ≤ MAX_FRAMES }
    requires start { start < day }
    requires few { length events.now < 2 ^ 32 }
    ensures long { OnOk result (long_in events.now ≡ None) }
    ensures count { OnOk result (over_999 (length events.now) ≡ None) }
    ensures past { OnOk result (first_past day (times_of_all start events.now) ≡ None) }
    ensures refused { IfErr result (IsRefusedBefore day start events.now) }
{
    match long_in(events) {
        Some(at) => return Err(ListFault::DissolveTooLong(at)),
        None => {}
    }
    let count = events.len() as u32;
    if count > MOST {
        return Err(ListFault::Events(count));
    }
    match first_past(events, day, start) {
        Some(frame) => Err(ListFault::PastDay(frame)),
        None => Ok(()),
    }
}

// The place of the first dissolve that is too long, in the channels in order.
fn long_in(events: &[ChannelSegment]) -> Option<u32>
    ensures { result ≡ long_in events.now }
{
    match long_on(events, Channel::V) {
        Some(at) => return Some(at),
        None => {}
    }
    match long_on(events, Channel::A) {
        Some(at) => Some(at),
        None => long_on(events, Channel::A2),
    }
}

// The place of the first dissolve of a channel that is too long.
fn long_on(events: &[ChannelSegment], channel: Channel) -> Option<u32>
    ensures { result ≡ long_on channel events.now }
{
    for event in events {
        if rank(event.channel) == rank(channel) && event.segment.frames > MOST {
            return Some(event.segment.at);
        }
    }
    None
}

// The first time of the events' lines that is not below the day.
fn first_past(events: &[ChannelSegment], day: u32, start: u32) -> Option<u32>
    requires short { AreShort events.now }
    requires day { day ≤ MAX_FRAMES }
    requires start { start < day }
    ensures { result ≡ first_past day (times_of_all start events.now) }
{
    for event in events {
        match past_in(event, day, start) {
            Some(frame) => return Some(frame),
            None => {}
        }
    }
    None
}

// The first time of an event's lines that is not below the day.
fn past_in(event: &ChannelSegment, day: u32, start: u32) -> Option<u32>
    requires short { event.now.segment.at + event.now.segment.len ≤ MAX_FRAMES }
    requires day { day ≤ MAX_FRAMES }
    requires start { start < day }
    ensures { result ≡ first_past day (times_of start event.now) }
{
    let segment = event.segment;
    let place = start + segment.at;
    match past_in_left(segment.from, day, place) {
        Some(frame) => Some(frame),
        None => past_in_line(day, source_of(segment.side), place, segment.len),
    }
}

// The first time of the line of a dissolve's outgoing side that is not below the day; a cut has no such line.
fn past_in_left(from: Option<Side<u32>>, day: u32, place: u32) -> Option<u32>
    requires day { day ≤ MAX_FRAMES }
    ensures { result ≡ first_past day (left_times from place) }
{
    match from {
        Some(left) => past_in_line(day, source_of(left), place, 0),
        None => None,
    }
}

// The first of a line's source in, source out, record in and record out that is not below the day.
fn past_in_line(day: u32, source: u32, place: u32, len: u32) -> Option<u32>
    requires day { day ≤ MAX_FRAMES }
    requires len { len ≤ MAX_FRAMES }
    requires place { place + len < 2 ^ 32 }
    ensures { result ≡ first_past day (line_times source place len) }
{
    if source >= day {
        return Some(source);
    }
    if source + len >= day {
        return Some(source + len);
    }
    if place >= day {
        return Some(place);
    }
    if place + len >= day {
        return Some(place + len);
    }
    None
}

/// The source frame of a side, and 0 of a dark one.
pub fn source_of(side: Side<u32>) -> u32
    ensures { result ≡ source_of side }
{
    match side {
        Side::Dark => 0,
        Side::Pic { what: _, source } => source,
    }
}
