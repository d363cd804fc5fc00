// Slide: an item moved between its neighbours.
ghost use Rattle.std.specs.Prelude.{◌≡◌, ◌+◌, ◌*◌, ◌<◌, ◌≤◌, All, IfSome, Some, length, nat_eq, option_map, slice_get, true};
ghost use Rattle.std.specs.List.{list_any};
ghost use Rattle.out_of_memory.specs.Answers.{Answers};
ghost use Rattle.composables.specs.Good.{IsGood};
ghost use Rattle.composables.specs.Items.{items_of};
ghost use Rattle.composables.specs.OwnTracks.{numbers_of, track_numbered};
ghost use Rattle.composables.specs.Places.{IsPlaceOf};
ghost use Rattle.composables.specs.Ranges.{range_of};
ghost use Rattle.composables.specs.Roomy.{IsRoomy};
ghost use Rattle.composables.specs.Sizes.{size_of, sizes_of};
ghost use Rattle.composables.specs.TrackSets.{tracks_in};
ghost use Rattle.edit_splice.specs.Standing.{EachStaysGood, StaysGood};
ghost use Rattle.edit_roll.specs.Neighbours.{has_neighbours};
ghost use Rattle.edit_roll.specs.NeighboursInside.{StandBeside};
ghost use Rattle.edit_roll.specs.Sliding.{bare_view, slide_named, slide_range, slide_track};

use crate::linked_slides::links_refuse;
use crate::neighbours::{Sides, sides_of_item, used_between};
use composables::{Done, EditFault, ItemView, Place, Refusal, Slide, Table, Track, own_index};
use edit_delta::{Way, going_on, place_parts, reaching_back};
use link_groups::{FoundItem, item_on};
use std::alloc::Global;
use std::sync::ledger::Ledger;
use step_count::Steps;

/// Moves an item of its own track by the delta used, between its neighbours: the one that it leaves grows, the other
/// gives way, and the length of the track stays. Both keep a frame, and what grows keeps its source in its range; an
/// item that has no neighbour at one side stays where it is. A dissolve at the item's head is dropped. The other named
/// tracks stay as they are, so an item does not move away from what else has its link.
///
/// It answers the delta used, or the first of these refusals that holds: `NoItem`; `LinkOutside`, where the item's link
/// has a track that is not named; `LinkBroken`, where the delta used is not 0 and something else has its link;
/// `TooManyItems`.
pub fn slide<L: Ledger>(
    alloc: Global,
    table: &Table,
    named: &mut Vec<Track>,
    call: &Slide,
    steps: &mut Steps<L>,
) -> Result<Done, EditFault>
    requires named { numbers_of named.old.items ≡ tracks_in call.now.tracks }
    requires own { list_any (nat_eq call.now.track) (tracks_in call.now.tracks) ≡ true }
    requires good { All (λ t. IsGood table.now t) named.old.items }
    requires roomy { All (λ t. IsRoomy t) named.old.items }

    ensures answers { Answers (slide_named table.now named.old.items call.now)
        named.old.items named.new.items result }

    ensures named { numbers_of named.new.items ≡ tracks_in call.now.tracks }
    ensures good { All (λ t. IsGood table.now t) named.new.items }

    ensures least { steps.old + 1 ≤ steps.new }
    ensures most { steps.new ≤ steps.old + 32 * sizes_of named.old.items }
{
    steps.tick();
    match own_index(named, call.track) {
        Some(index) => slide_at(alloc, table, named, index, call, steps),
        None => unreachable!(),
    }
}

// Slides the item, unless its link refuses that, where its own track stands at this index among the named ones.
fn slide_at<L: Ledger>(
    alloc: Global,
    table: &Table,
    named: &mut Vec<Track>,
    index: usize,
    call: &Slide,
    steps: &mut Steps<L>,
) -> Result<Done, EditFault>
    requires within { index < length named.old.items }
    requires found { track_numbered call.now.track named.old.items
        ≡ slice_get named.old.items index }
    requires named { numbers_of named.old.items ≡ tracks_in call.now.tracks }
    requires good { All (λ t. IsGood table.now t) named.old.items }
    requires roomy { All (λ t. IsRoomy t) named.old.items }
    ensures answers { Answers (slide_named table.now named.old.items call.now)
        named.old.items named.new.items result }
    ensures good { EachStaysGood table.now named.old.items named.new.items }
    ensures least { steps.old ≤ steps.new }
    ensures most { steps.new ≤ steps.old + 18 * sizes_of named.old.items }
{
    let track = &named[index];
    let found = item_on(track, call.item, steps);
    match links_refuse(table, named, track, found, call, steps) {
        Some(refusal) => Err(EditFault::Refused(refusal)),
        None => slide_track(alloc, table, &mut named[index], found, call, steps),
    }
}

// Slides the item that was looked for on its own track, whose link allows it, or refuses where there is none.
fn slide_track<L: Ledger>(
    alloc: Global,
    table: &Table,
    track: &mut Track,
    found: Option<FoundItem>,
    call: &Slide,
    steps: &mut Steps<L>,
) -> Result<Done, EditFault>
    requires good { IsGood table.now track.old }
    requires roomy { IsRoomy track.old }
    requires read { IfSome found (λ f. slice_get (items_of track.old.cells) f.index ≡ Some f.view) }
    requires place { IfSome found (λ f. IsPlaceOf track.old.cells
        (record { index = f.index; from = f.from; to = f.to })) }
    requires range { range_of track.old.cells call.now.item
        ≡ option_map (λ f. (f.from, f.to)) found }
    ensures answers { Answers (slide_track table.now call.now track.old)
        track.old track.new result }
    ensures good { StaysGood table.now track.old track.new }
    ensures least { steps.old ≤ steps.new }
    ensures most { steps.new ≤ steps.old + 16 * size_of track.old }
{
    match found {
        Some(found) => slide_found(alloc, table, track, found, call, steps),
        None => Err(EditFault::Refused(Refusal::NoItem)),
    }
}

// Slides the item that was found, whose link allows it.
fn slide_found<L: Ledger>(
    alloc: Global,
    table: &Table,
    track: &mut Track,
    found: FoundItem,
    call: &Slide,
    steps: &mut Steps<L>,
) -> Result<Done, EditFault>
    requires good { IsGood table.now track.old }
    requires roomy { IsRoomy track.old }
    requires read { slice_get (items_of track.old.cells) found.index ≡ Some found.view }
    requires place { IsPlaceOf track.old.cells
        (record { index = found.index; from = found.from; to = found.to }) }
    requires range { range_of track.old.cells call.now.item ≡ Some (found.from, found.to) }
    ensures answers { Answers (slide_track table.now call.now track.old)
        track.old track.new result }
    ensures good { StaysGood table.now track.old track.new }
    ensures least { steps.old ≤ steps.new }
    ensures most { steps.new ≤ steps.old + 16 * size_of track.old }
{
    let place = Place {
        index: found.index,
        from: found.from,
        to: found.to,
    };
    match sides_of_item(track, place) {
        Some(sides) => slide_item(
            alloc,
            table,
            track,
            place,
            &found.view,
            &sides,
            call.by,
            steps,
        ),
        None => Ok(Done::By(0)),
    }
}

// Moves the item at a place between these two items or gaps.
fn slide_item<L: Ledger>(
    alloc: Global,
    table: &Table,
    track: &mut Track,
    found: Place,
    view: &ItemView,
    sides: &Sides,
    by: i32,
    steps: &mut Steps<L>,
) -> Result<Done, EditFault>
    requires good { IsGood table.now track.old }
    requires roomy { IsRoomy track.old }
    requires place { IsPlaceOf track.old.cells found }
    requires view { slice_get (items_of track.old.cells) found.index ≡ Some view.now }
    requires sides { StandBeside track.old.cells found.from found.to sides.now }
    requires both { has_neighbours track.old.cells found.from found.to ≡ true }
    ensures answers { Answers (slide_range table.now track.old by found.from found.to)
        track.old track.new result }
    ensures good { StaysGood table.now track.old track.new }
    ensures least { steps.old ≤ steps.new }
    ensures most { steps.new ≤ steps.old + 16 * size_of track.old }
{
    let used = used_between(table, sides, by);
    match used.way {
        Way::Still => Ok(used.done),
        Way::Later(frames) => {
            let parts = [going_on(&sides.left, frames), without_mark(view)];
            let to = found.to + frames;
            place_parts(
                alloc, table, track, found.from, to, &parts, used.done, steps,
            )
        }
        Way::Earlier(frames) => {
            let parts = [without_mark(view), reaching_back(&sides.right, frames)];
            let from = found.from - frames;
            place_parts(
                alloc, table, track, from, found.to, &parts, used.done, steps,
            )
        }
    }
}

// The item without the dissolve at its head.
fn without_mark(view: &ItemView) -> ItemView
    ensures { result ≡ bare_view view.now }
{
    ItemView {
        mark: None,
        ..*view
    }
}
