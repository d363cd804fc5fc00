// A list as the opening of a room.
ghost use Rattle.std.specs.Prelude.{◌≡◌, ◌<◌, IfErr, IfOk, None, length};
ghost use Rattle.otio_json.specs.Soundness.{IsSoundOpening};
ghost use Rattle.otio_tracks.specs.ReelTexts.{AreTexts};
ghost use Rattle.edl_read.specs.ReadLists.{CanBeRead};
ghost use Rattle.list_import.specs.Imports.{start_of, Imports};
ghost use Rattle.list_import.specs.Refusals.{first_refused, IsAllowed, IsRefusalOf};
ghost use Rattle.list_import.specs.ShownLists.{ShowsTheTape};

use crate::naming::shots_of;
use crate::refusing::{first_full, start_within};
use crate::tracks::tracks_of;
use crate::{ImportCode, ImportFault, Memory};
use edl_events::Event;
use edl_read::List;
use otio_json::Opening;
use std::alloc::Global;
use timecode12::Counting;

// The opening of events that have their places on tracks, from the least record in on.
fn opening_of(
    alloc: Global,
    start: u32,
    events: &[Event],
    counting: &Counting,
) -> Result<Opening, Memory>
    requires read { CanBeRead events.now }
    requires events_fit { first_refused events.now ≡ None }
    requires start { start ≡ start_of events.now }
    ensures imports { IfOk result (λ opening. Imports events.now counting.now opening) }
    ensures texts { IfOk result (λ opening. AreTexts opening.table.reels) }
{
    let (shots, table) = shots_of(alloc, events)?;
    let tracks = tracks_of(alloc, start, &shots)?;
    Ok(Opening {
        table,
        tracks,
        counting: *counting,
        start,
    })
}

/// The opening of a room that a list is, or the first reason why it is none.
///
/// The room starts where the first event does. Track 0 is the picture, tracks 1 and 2 are the channels of sound; each
/// reel but `BL` has one media entry. An event is one item on each of its tracks, and a dissolve two that meet at its cut;
/// `BL`, and what no event covers, is dark. Items are numbered by their place on the track.
pub fn import_list(alloc: Global, list: &List, counting: &Counting) -> Result<Opening, ImportFault>
    requires { CanBeRead list.now }

    ensures imports { IfOk result (λ opening. Imports list.now counting.now opening) }
    ensures allowed { IfOk result (λ opening. IsAllowed list.now counting.now opening) }
    // A room can be opened over it, and its document can be written.
    ensures sound { IfOk result IsSoundOpening }
    ensures texts { IfOk result (λ opening. AreTexts opening.table.reels) }
    // It shows what the list's tape shows.
    ensures shows { IfOk result (λ opening. ShowsTheTape list.now opening) }

    ensures refused { IfErr result (λ fault. IsRefusalOf list.now counting.now fault) }
{
    let events = list.as_slice();
    let start = start_within(events, counting)?;
    let opening = opening_of(alloc, start, events, counting)?;
    match first_full(opening.tracks.as_slice()) {
        Some(number) => Err(ImportFault::Refused {
            code: ImportCode::I4,
            number,
        }),
        None => Ok(opening),
    }
}
