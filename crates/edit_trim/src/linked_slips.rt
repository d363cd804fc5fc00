// Slip of all that has a link: one delta that suits each item, and then the source frames of each moved by it.
ghost use Rattle.std.specs.Prelude.{◌≡◌, ◌+◌, ◌*◌, ◌<◌, ◌≤◌, All, OnOk, Some, length, map, min, slice_get};
ghost use Rattle.frame_meaning.specs.Render.{moved};
ghost use Rattle.out_of_memory.specs.Answers.{Answers};
ghost use Rattle.composables.specs.Changes.{side_from};
ghost use Rattle.composables.specs.Good.{IsGood};
ghost use Rattle.composables.specs.Items.{items_of};
ghost use Rattle.composables.specs.Sizes.{size_of, sizes_of};
ghost use Rattle.composables.specs.TrackFacts.{HasSource};
ghost use Rattle.edit_splice.specs.Standing.{EachStaysGood};
ghost use Rattle.edit_trim.specs.LinkedSlips.{AllMove, EachMoves, ReachesBack, RoomAmong, RoomOf, RoomOn, back_of, moved_by, on_of};
ghost use Rattle.edit_trim.specs.Slipping.{mark_of, slip_linked};

use crate::slipping::{mark_of, room_earlier, room_later};
use composables::{Done, EditFault, ItemReader, ItemView, Memory, Table, Track, copies_of};
use edit_delta::{Way, used_within};
use frame_meaning::{Link, Side};
use link_groups::{carries, outside_refusal};
use std::alloc::Global;
use std::sync::ledger::Ledger;
use step_count::Steps;

/// How many source frames earlier, and how many later, what moves may show its thing.
#[derive(Clone, Copy)]
pub struct SlipRoom {
    pub earlier: u32,
    pub later: u32,
}

/// Adds one delta to the source frames of all that has the link on these tracks, which must be all tracks of the link.
/// Out of memory, the tracks are as they were.
pub fn slip_linked<L: Ledger>(
    alloc: Global,
    table: &Table,
    named: &mut Vec<Track>,
    link: Link,
    by: i32,
    steps: &mut Steps<L>,
) -> Result<Done, EditFault>
    requires good { All (λ t. IsGood table.now t) named.old.items }
    ensures answers { Answers (slip_linked table.now named.old.items link by)
        named.old.items named.new.items result }
    ensures good { EachStaysGood table.now named.old.items named.new.items }
    ensures least { steps.old ≤ steps.new }
    ensures most { steps.new ≤ steps.old + 2 * sizes_of named.old.items }
{
    match outside_refusal(named, Some(link)) {
        Some(refusal) => return Err(EditFault::Refused(refusal)),
        None => {}
    }
    let room = room_among(table, named, link, steps);
    let used = used_within(by, room.earlier, room.later);
    let mut slipped = copies_of(alloc, named)?;
    move_all(alloc, table, &mut slipped, link, used.way, steps)?;
    *named = slipped;
    Ok(used.done)
}

// The room that suits all that has the link on these tracks.
fn room_among<L: Ledger>(
    table: &Table,
    named: &[Track],
    link: Link,
    steps: &mut Steps<L>,
) -> SlipRoom
    requires good { All (λ t. IsGood table.now t) named.now }
    ensures room { RoomAmong table.now link named.now result }
    ensures least { steps.old ≤ steps.new }
    ensures most { steps.new ≤ steps.old + sizes_of named.now }
{
    let mut room = SlipRoom {
        earlier: u32::MAX,
        later: u32::MAX,
    };
    for track in named {
        room = narrower(room, room_on(table, track, link, steps));
    }
    room
}

// The room that suits all that has the link on this track. Pages that have not its key are passed by.
fn room_on<L: Ledger>(table: &Table, track: &Track, link: Link, steps: &mut Steps<L>) -> SlipRoom
    requires good { IsGood table.now track.now }
    ensures room { RoomOn table.now link (items_of track.now.cells) result }
    ensures least { steps.old ≤ steps.new }
    ensures most { steps.new ≤ steps.old + size_of track.now }
{
    let mut room = SlipRoom {
        earlier: u32::MAX,
        later: u32::MAX,
    };
    let count = track.count();
    let mut items = ItemReader::at(track, 0);
    let mut index: u32 = 0;
    while index < count {
        let passed = items.pass_others(link);
        index += passed.count;
        let Some(view) = items.next() else {
            return room;
        };
        steps.tick();
        if carries(link, view.link) {
            room = narrower(room, room_to_slip(table, track, index, &view));
        }
        index += 1;
    }
    room
}

// The room that suits both: the lesser of each way.
fn narrower(one: SlipRoom, other: SlipRoom) -> SlipRoom
    ensures earlier { result.earlier ≡ min one.earlier other.earlier }
    ensures later { result.later ≡ min one.later other.later }
{
    SlipRoom {
        earlier: one.earlier.min(other.earlier),
        later: one.later.min(other.later),
    }
}

// The room of the item with an index, with the dissolves at its two ends.
fn room_to_slip(table: &Table, track: &Track, index: u32, view: &ItemView) -> SlipRoom
    requires good { IsGood table.now track.now }
    requires within { index < length (items_of track.now.cells) }
    requires view { slice_get (items_of track.now.cells) index ≡ Some view.now }
    ensures { RoomOf table.now view.now
        (mark_of (slice_get (items_of track.now.cells) (index + 1))) result }
{
    let tail = mark_of(track.item(index + 1));
    SlipRoom {
        earlier: room_earlier(table, view),
        later: room_later(table, view, tail),
    }
}

// Moves the source frames of all that has the link on these tracks, which are copies.
fn move_all<L: Ledger>(
    alloc: Global,
    table: &Table,
    named: &mut Vec<Track>,
    link: Link,
    way: Way,
    steps: &mut Steps<L>,
) -> Result<(), Memory>
    requires good { All (λ t. IsGood table.now t) named.old.items }
    requires moves { AllMove table.now link named.old.items (on_of way) (back_of way) }
    ensures moved { OnOk result (named.new.items ≡ map (moved_by link way) named.old.items) }
    ensures least { steps.old ≤ steps.new }
    ensures most { steps.new ≤ steps.old + sizes_of named.old.items }
{
    for index in 0..named.len() {
        move_on(alloc, table, &mut named[index], link, way, steps)?;
    }
    Ok(())
}

// Moves the source frames of all that has the link on this track. It reads the items of the track as it was while it
// changes some of them. Pages that have not the key of the link are passed by.
fn move_on<L: Ledger>(
    alloc: Global,
    table: &Table,
    track: &mut Track,
    link: Link,
    way: Way,
    steps: &mut Steps<L>,
) -> Result<(), Memory>
    requires good { IsGood table.now track.old }
    requires moves { EachMoves table.now link (items_of track.old.cells)
        (on_of way) (back_of way) }
    ensures moved { OnOk result (track.new ≡ moved_by link way track.old) }
    ensures least { steps.old ≤ steps.new }
    ensures most { steps.new ≤ steps.old + size_of track.old }
{
    let old = track.copy(alloc)?;
    let count = old.count();
    let mut items = ItemReader::at(&old, 0);
    let mut index: u32 = 0;
    while index < count {
        let passed = items.pass_others(link);
        index += passed.count;
        let Some(view) = items.next() else {
            return Ok(());
        };
        steps.tick();
        if carries(link, view.link) {
            track.set_source(alloc, index, moved_source(&view, way))?;
        }
        index += 1;
    }
    Ok(())
}

// The source frame from which on an item shows its thing once it is moved.
fn moved_source(view: &ItemView, way: Way) -> u32
    requires filled { 0 < view.now.len }
    requires reaches { ReachesBack view.now.first (back_of way) }
    requires source { HasSource (moved view.now.first (on_of way) (back_of way))
        view.now.len 0 0 }
    ensures { side_from view.now.first result
        ≡ moved view.now.first (on_of way) (back_of way) }
{
    match view.first {
        Side::Dark => 0,
        Side::Pic { source, .. } => match way {
            Way::Still => source,
            Way::Later(frames) => source + frames,
            Way::Earlier(frames) => source - frames,
        },
    }
}
