// Slip: the source frames of an item moved, with those of all that has its link.
ghost use Rattle.std.specs.Prelude.{◌≡◌, ◌+◌, ◌-◌, ◌*◌, ◌<◌, ◌≤◌, All, IfSome, Some, length, nat_eq, option_map, slice_get, true};
ghost use Rattle.std.specs.List.{list_any};
ghost use Rattle.frame_meaning.specs.Cells.{later_side};
ghost use Rattle.out_of_memory.specs.Answers.{Answers};
ghost use Rattle.composables.specs.Good.{IsGood, SideLiesIn};
ghost use Rattle.composables.specs.Items.{items_of};
ghost use Rattle.composables.specs.OwnTracks.{numbers_of, track_numbered};
ghost use Rattle.composables.specs.Places.{IsPlaceOf};
ghost use Rattle.composables.specs.Ranges.{range_of, HasNumber};
ghost use Rattle.composables.specs.Sizes.{size_of, sizes_of};
ghost use Rattle.composables.specs.TrackFacts.{HasSource, left_reach, right_reach};
ghost use Rattle.composables.specs.TrackSets.{tracks_in};
ghost use Rattle.edit_delta.specs.Nearest.{AreUpTo};
ghost use Rattle.edit_splice.specs.Standing.{EachStaysGood, StaysGood};
ghost use Rattle.edit_trim.specs.Slipping.{mark_of, may_slip_earlier, may_slip_later, shows_from, slip_named, slip_range, slip_track};

use crate::linked_slips::slip_linked;
use composables::{Done, EditFault, ItemView, Place, Refusal, Slip, Table, Track, own_index};
use edit_delta::{Way, used_within};
use frame_meaning::{Mark, Side};
use link_groups::{FoundItem, item_with_link};
use std::alloc::Global;
use std::sync::ledger::Ledger;
use step_count::Steps;

/// Adds the delta used to the source frames of an item of its own track and, where it has a link, of all items of the
/// link on the named tracks. All stay where they are, by one delta that suits each of them. A dissolve at their ends
/// stays, and the frames that it shows past them stay in the thing's range too. Out of memory, the tracks are as they
/// were.
///
/// It answers the delta used, or the first of these refusals that holds: `NoItem`, where its own track has no such item;
/// `LinkOutside`, where the item's link has a track that is not named.
pub fn slip<L: Ledger>(
    alloc: Global,
    table: &Table,
    named: &mut Vec<Track>,
    call: &Slip,
    steps: &mut Steps<L>,
) -> Result<Done, EditFault>
    requires named { numbers_of named.old.items ≡ tracks_in call.now.tracks }
    requires own { list_any (nat_eq call.now.track) (tracks_in call.now.tracks) ≡ true }
    requires good { All (λ t. IsGood table.now t) named.old.items }

    ensures answers { Answers (slip_named table.now named.old.items call.now)
        named.old.items named.new.items result }

    ensures named { numbers_of named.new.items ≡ tracks_in call.now.tracks }
    ensures good { All (λ t. IsGood table.now t) named.new.items }

    ensures least { steps.old + 1 ≤ steps.new }
    ensures most { steps.new ≤ steps.old + 32 * sizes_of named.old.items }
{
    steps.tick();
    match own_index(named, call.track) {
        Some(index) => slip_at(alloc, table, named, index, call, steps),
        None => unreachable!(),
    }
}

// Slips the item, or all that has its link, where its own track stands at this index among the named ones.
fn slip_at<L: Ledger>(
    alloc: Global,
    table: &Table,
    named: &mut Vec<Track>,
    index: usize,
    call: &Slip,
    steps: &mut Steps<L>,
) -> Result<Done, EditFault>
    requires within { index < length named.old.items }
    requires found { track_numbered call.now.track named.old.items
        ≡ slice_get named.old.items index }
    requires named { numbers_of named.old.items ≡ tracks_in call.now.tracks }
    requires good { All (λ t. IsGood table.now t) named.old.items }
    ensures answers { Answers (slip_named table.now named.old.items call.now)
        named.old.items named.new.items result }
    ensures good { EachStaysGood table.now named.old.items named.new.items }
    ensures least { steps.old ≤ steps.new }
    ensures most { steps.new ≤ steps.old + 4 * sizes_of named.old.items }
{
    let (found, link) = item_with_link(&named[index], call.item, steps);
    match link {
        Some(link) => slip_linked(alloc, table, named, link, call.by, steps),
        None => slip_track(alloc, table, &mut named[index], found, call),
    }
}

// Slips an item without a link, which was looked for on its track.
fn slip_track(
    alloc: Global,
    table: &Table,
    track: &mut Track,
    found: Option<FoundItem>,
    call: &Slip,
) -> Result<Done, EditFault>
    requires good { IsGood table.now track.old }
    requires read { IfSome found (λ f. slice_get (items_of track.old.cells) f.index ≡ Some f.view) }
    requires place { IfSome found (λ f. IsPlaceOf track.old.cells
        (record { index = f.index; from = f.from; to = f.to })) }
    requires has { IfSome found (λ f. HasNumber (items_of track.old.cells) f.index call.now.item) }
    requires range { range_of track.old.cells call.now.item
        ≡ option_map (λ f. (f.from, f.to)) found }
    ensures answers { Answers (slip_track table.now call.now track.old) track.old track.new result }
    ensures good { StaysGood table.now track.old track.new }
{
    match found {
        Some(found) => slip_found(alloc, table, track, found, call),
        None => Err(EditFault::Refused(Refusal::NoItem)),
    }
}

// Slips the item that was found, which has no link.
fn slip_found(
    alloc: Global,
    table: &Table,
    track: &mut Track,
    found: FoundItem,
    call: &Slip,
) -> Result<Done, EditFault>
    requires good { IsGood table.now track.old }
    requires read { slice_get (items_of track.old.cells) found.index ≡ Some found.view }
    requires place { IsPlaceOf track.old.cells
        (record { index = found.index; from = found.from; to = found.to }) }
    requires has { HasNumber (items_of track.old.cells) found.index call.now.item }
    requires range { range_of track.old.cells call.now.item ≡ Some (found.from, found.to) }
    ensures answers { Answers (slip_track table.now call.now track.old) track.old track.new result }
    ensures good { StaysGood table.now track.old track.new }
{
    let view = found.view;
    let Side::Pic { source, .. } = view.first else {
        unreachable!()
    };
    let place = Place {
        index: found.index,
        from: found.from,
        to: found.to,
    };
    slip_item(alloc, table, track, place, &view, source, call.by)
}

// Slips the item at a place, whose source frames begin at this one.
fn slip_item(
    alloc: Global,
    table: &Table,
    track: &mut Track,
    found: Place,
    view: &ItemView,
    source: u32,
    by: i32,
) -> Result<Done, EditFault>
    requires good { IsGood table.now track.old }
    requires place { IsPlaceOf track.old.cells found }
    requires view { slice_get (items_of track.old.cells) found.index ≡ Some view.now }
    requires source { shows_from view.now.first source }
    ensures answers { Answers (slip_range table.now track.old by found.from found.to)
        track.old track.new result }
    ensures good { StaysGood table.now track.old track.new }
{
    let tail = mark_of(track.item(found.index + 1));
    let used = used_within(by, room_earlier(table, view), room_later(table, view, tail));
    match used.way {
        Way::Still => Ok(used.done),
        Way::Later(frames) => {
            track.set_source(alloc, found.index, source + frames)?;
            Ok(used.done)
        }
        Way::Earlier(frames) => {
            track.set_source(alloc, found.index, source - frames)?;
            Ok(used.done)
        }
    }
}

/// The dissolve before an item or gap, if it is there.
pub fn mark_of(view: Option<ItemView>) -> Option<Mark>
    ensures { result ≡ mark_of view }
{
    match view {
        Some(view) => view.mark,
        None => None,
    }
}

/// How many source frames later an item may show its thing, with this dissolve at its tail.
pub fn room_later(table: &Table, view: &ItemView, tail: Option<Mark>) -> u32
    requires filled { 0 < view.now.len }
    requires lies { SideLiesIn table.now view.now.first view.now.len 0 (right_reach tail) }
    requires source { HasSource view.now.first view.now.len 0 (right_reach tail) }
    ensures reach { AreUpTo (may_slip_later table.now (later_side view.now.first (view.now.len - 1))
        tail) result }
    ensures numbered { HasSource view.now.first view.now.len 0 (right_reach tail + result) }
{
    match view.first {
        Side::Dark => u32::MAX,
        Side::Pic { what, source } => match table.bounds(what) {
            Some((_, to)) => to - source - view.len - right_reach(tail),
            None => unreachable!(),
        },
    }
}

// How many frames a dissolve has after its cut, and so shows past the tail of the item before it.
pub(crate) fn right_reach(mark: Option<Mark>) -> u32
    ensures { result ≡ right_reach mark }
{
    match mark {
        Some(mark) => mark.b,
        None => 0,
    }
}

/// How many source frames earlier an item may show its thing, with the dissolve at its head.
pub fn room_earlier(table: &Table, view: &ItemView) -> u32
    requires lies { SideLiesIn table.now view.now.first view.now.len (left_reach view.now.mark) 0 }
    ensures { AreUpTo (may_slip_earlier table.now view.now.first view.now.mark) result }
{
    match view.first {
        Side::Dark => u32::MAX,
        Side::Pic { what, source } => match table.bounds(what) {
            Some((from, _)) => source - from - left_reach(view.mark),
            None => unreachable!(),
        },
    }
}

// How many frames a dissolve has before its cut, and so shows ahead of the head of the item after it.
pub(crate) fn left_reach(mark: Option<Mark>) -> u32
    ensures { result ≡ left_reach mark }
{
    match mark {
        Some(mark) => mark.a,
        None => 0,
    }
}
