// The reels of a list in order of first use, and its events as a track shows them.
ghost use Rattle.std.specs.Prelude.{◌≡◌, ◌+◌, ◌*◌, ◌<◌, ◌≤◌, [], IfOk, OnOk, length, map};
ghost use Rattle.std.specs.List.{range_with_len};
ghost use Rattle.otio_tracks.specs.ReelTexts.{AreTexts};
ghost use Rattle.list_import.specs.ListReels.{from_in, listed_table, media_of, reels_of, shot_of, shots_of, side_in, table_of, track_kinds, with_event, with_from, with_reel, with_reels};

use crate::{Memory, Shot};
use composables::{Kind, Listed, Media, Table};
use edl_events::{Event, FromLine};
use frame_meaning::{Side, What};
use otio_tracks::Entries;
use reel_names::Name;
use std::alloc::Global;

/// The most source frames that a reel of a document has.
const MOST_SOURCE: u32 = 16_777_216;

// The text of a name.
fn text_of(name: &Name) -> &str
    ensures { result.now ≡ name.now }
{
    match std::str::from_utf8(name.as_bytes()) {
        Ok(text) => text,
        Err(_) => unreachable!(),
    }
}

// What a reel shows from a source frame on. Black is dark, and no reel of the table.
fn enter_side(table: &mut Entries, reel: &Name, source: u32) -> Result<Side<What>, Memory>
    requires { length table.old.reels < 4294967295 }
    ensures table { OnOk result (table.new
        ≡ with_reels table.old (with_reel table.old.reels reel.now)) }
    ensures side { IfOk result (λ side. side ≡ side_in table.new.reels reel.now source) }
{
    if reel.is_black() {
        return Ok(Side::Dark);
    }
    let number = table.enter_reel(text_of(reel))?;
    Ok(Side::Pic {
        what: What::Media(number),
        source,
    })
}

// What the outgoing side of a dissolve shows.
fn enter_from(table: &mut Entries, from: &Option<FromLine>) -> Result<Option<Side<What>>, Memory>
    requires { length table.old.reels < 4294967295 }
    ensures table { OnOk result (table.new
        ≡ with_reels table.old (with_from table.old.reels from.now)) }
    ensures side { IfOk result (λ side. side ≡ from_in table.new.reels from.now) }
{
    match from {
        None => Ok(None),
        Some(from) => {
            let side = enter_side(table, &from.reel, from.source)?;
            Ok(Some(side))
        }
    }
}

// An event as a track shows it. The reel that goes out is entered before the one that comes in.
fn enter_event(table: &mut Entries, event: &Event) -> Result<Shot, Memory>
    requires { length table.old.reels + 2 < 4294967295 }
    ensures table { OnOk result (table.new
        ≡ with_reels table.old (with_event table.old.reels event.now)) }
    ensures shot { IfOk result (λ shot. shot ≡ shot_of table.new.reels event.now) }
{
    let from = enter_from(table, &event.from)?;
    let side = enter_side(table, &event.reel, event.source)?;
    Ok(Shot {
        channels: event.channels,
        place: event.place,
        len: event.len,
        from,
        frames: event.frames,
        side,
    })
}

// The events as a track shows them, each with its reels entered.
fn enter_events(alloc: Global, table: &mut Entries, events: &[Event]) -> Result<Vec<Shot>, Memory>
    requires none { table.old.reels ≡ [] }
    requires few { 2 * length events.now < 4294967295 }
    ensures table { OnOk result (table.new ≡ with_reels table.old (reels_of events.now)) }
    ensures shots { IfOk result (λ shots. shots.items ≡ shots_of events.now) }
{
    let mut shots = Vec::new(alloc);
    for event in events {
        let shot = enter_event(table, event)?;
        shots.push(shot)?;
    }
    Ok(shots)
}

// A table of the picture and two channels of sound, without reels.
fn first_table(alloc: Global) -> Result<Entries, Memory>
    ensures { IfOk result (λ table. table ≡ track_kinds) }
{
    let mut table = Entries::new(alloc);
    table.add_kind(Kind::Video)?;
    table.add_kind(Kind::Audio)?;
    table.add_kind(Kind::Audio)?;
    Ok(table)
}

// A media entry with all source frames for each of so many reels.
fn media_list(alloc: Global, reels: u32) -> Result<Listed<Media>, Memory>
    ensures { IfOk result (λ media. media ≡ map media_of (range_with_len 0 reels)) }
{
    let mut media = Listed::new(alloc);
    for reel in 0..reels {
        media.push(Media {
            reel,
            from: 0,
            to: MOST_SOURCE,
        })?;
    }
    Ok(media)
}

// The table with a media entry for each of its reels, and no other.
fn listed_table(alloc: Global, table: Table) -> Result<Table, Memory>
    ensures { IfOk result (λ all. all ≡ listed_table table) }
{
    let media = media_list(alloc, table.reels.count())?;
    Ok(Table {
        kinds: table.kinds,
        reels: table.reels,
        media,
        nests: table.nests,
    })
}

/// The events as a track shows them, and the table that they use.
pub fn shots_of(alloc: Global, events: &[Event]) -> Result<(Vec<Shot>, Table), Memory>
    requires { 2 * length events.now < 4294967295 }
    ensures shots { IfOk result (λ all. all.0.items ≡ shots_of events.now) }
    ensures table { IfOk result (λ all. all.1 ≡ table_of events.now) }
    ensures texts { IfOk result (λ all. AreTexts all.1.reels) }
{
    let mut entries = first_table(alloc)?;
    let shots = enter_events(alloc, &mut entries, events)?;
    let entered = entries.finish()?;
    let table = listed_table(alloc, entered)?;
    Ok((shots, table))
}
