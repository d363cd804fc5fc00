// What makes no opening: events that have no place, a start after the day, a track with too many items and gaps.
ghost use Rattle.std.specs.Prelude.{◌≡◌, ◌<◌, IfErr, IfOk, OnOk, None, length};
ghost use Rattle.timecode12.specs.Labels.{day_of};
ghost use Rattle.list_import.specs.Imports.{start_of};
ghost use Rattle.list_import.specs.Refusals.{event_code, first_full, first_refused, IsRefusalOf};

use crate::{ImportCode, ImportFault};
use composables::{MAX_ITEMS, Track};
use edl_events::Event;
use std::alloc::Global;
use timecode12::Counting;

// Why an event has no place on a track: it is a dissolve of one frame and nothing else, or a dissolve from black to black.
fn event_code(event: &Event) -> Option<ImportCode>
    ensures { result ≡ event_code event.now }
{
    match &event.from {
        None => None,
        Some(from) => {
            if event.frames == 1 && event.len == 1 {
                return Some(ImportCode::I1);
            }
            if from.reel.is_black() && event.reel.is_black() {
                return Some(ImportCode::I2);
            }
            None
        }
    }
}

// The first event that has no place, and its line.
fn first_refused(events: &[Event]) -> Option<(ImportCode, u32)>
    ensures { result ≡ first_refused events.now }
{
    for event in events {
        match event_code(event) {
            Some(code) => return Some((code, event.line)),
            None => {}
        }
    }
    None
}

// The least record in of these, and 0 where there are none.
fn start_of(events: &[Event]) -> u32
    ensures { result ≡ start_of events.now }
{
    let mut start = match events.first() {
        Some(first) => first.place,
        None => return 0,
    };
    for event in events {
        start = start.min(event.place);
    }
    start
}

/// The record frame with which the opening of a list starts, or why the list makes none.
pub fn start_within(events: &[Event], counting: &Counting) -> Result<u32, ImportFault>
    ensures start { IfOk result (λ start. start ≡ start_of events.now) }
    ensures events_fit { OnOk result (first_refused events.now ≡ None) }
    ensures within_day { OnOk result (start_of events.now < length (day_of counting.now)) }
    ensures refused { IfErr result (λ fault. IsRefusalOf events.now counting.now fault) }
{
    match first_refused(events) {
        Some((code, number)) => return Err(ImportFault::Refused { code, number }),
        None => {}
    }
    let start = start_of(events);
    if start >= counting.day() {
        return Err(ImportFault::Refused {
            code: ImportCode::I3,
            number: start,
        });
    }
    Ok(start)
}

/// The number of the first of these tracks that has too many items and gaps.
pub fn first_full(tracks: &[Track]) -> Option<u32>
    ensures { result ≡ first_full tracks.now }
{
    for track in tracks {
        if track.count() > MAX_ITEMS {
            return Some(track.number());
        }
    }
    None
}
