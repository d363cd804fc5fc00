// New links for the moved items of links that also have items which stay.
ghost use Rattle.std.specs.Prelude.{◌≡◌, ◌+◌, ◌*◌, ◌<◌, ◌≤◌, ◌^◌, All, IfSome, IsNone, OnErr, OnOk, Some, None, length, map, slice_get, unwrap_or};
ghost use Rattle.std.specs.BTreeMap.{get};
ghost use Rattle.std.specs.Ordering.{nat_cmp};
ghost use Rattle.composables.specs.Changes.{changed_track, with_link};
ghost use Rattle.composables.specs.Good.{EachLinkOf};
ghost use Rattle.composables.specs.Items.{items_of};
ghost use Rattle.composables.specs.Links.{cells_from, link_outside, links_split};
ghost use Rattle.composables.specs.Sizes.{look_of, size_of, sizes_of};
ghost use Rattle.composables.specs.TrackFacts.{IsKept};
ghost use Rattle.link_groups.specs.Keys.{HasMarks};
ghost use Rattle.link_groups.specs.Renumbering.{MayBeSplit, IsUncut};
ghost use Rattle.link_groups.specs.Splits.{given_link, relinked_cells, relinked_track};
ghost use Rattle.link_groups.specs.Starts.{IsStart};

use crate::passing::pass_unmarked;
use crate::splits::{Splits, splits_at};
use crate::starts::{Start, first, found};
use composables::{ItemReader, ItemView, Memory, Track, a_track_is_kept, copies_of};
use frame_meaning::Link;
use std::alloc::Global;
use std::sync::ledger::Ledger;
use step_count::Steps;

/// Gives the items from the record frame `y` on new links where others of their links stand before `x`: with the same
/// home and tracks, and the next numbers of the home, in the order of the links. Out of memory, the tracks are as they
/// were.
pub fn renumber<L: Ledger>(
    alloc: Global,
    named: &mut Vec<Track>,
    x: u32,
    y: u32,
    steps: &mut Steps<L>,
) -> Result<(), Memory>
    requires room { MayBeSplit named.old.items }
    requires inside { link_outside named.old.items (cells_from y named.old.items) ≡ None }
    requires own { All (λ t. EachLinkOf t.number (items_of t.cells)) named.old.items }
    requires uncut { All (λ t. IsUncut y t) named.old.items }
    ensures split { OnOk result (named.new.items ≡ links_split x y named.old.items) }
    ensures memory { OnErr result (named.new.items ≡ named.old.items) }
    ensures least { steps.old ≤ steps.new }
    ensures most { steps.new ≤ steps.old + 4 * sizes_of named.old.items }
{
    let splits = splits_at(alloc, named, x, y, steps)?;
    let mut renumbered = copies_of(alloc, named)?;
    relink_whole(alloc, &mut renumbered, u64::from(y), &splits, steps)?;
    *named = renumbered;
    Ok(())
}

// Gives the items that end past a place their new links, on each of these tracks, which are copies. Each walk begins at the
// first item.
fn relink_whole<L: Ledger>(
    alloc: Global,
    named: &mut Vec<Track>,
    place: u64,
    splits: &Splits,
    steps: &mut Steps<L>,
) -> Result<(), Memory>
    requires next { All (λ t. t.next_link + unwrap_or (get nat_cmp splits.now.counts t.number) 0
        < 2 ^ 32) named.old.items }
    requires marked { HasMarks splits.now }
    ensures relinked { OnOk result
        (named.new.items ≡ map (relinked_track splits.now place) named.old.items) }
    ensures least { steps.old ≤ steps.new }
    ensures most { steps.new ≤ steps.old + sizes_of named.old.items }
{
    for index in 0..named.len() {
        relink_track(alloc, &mut named[index], first(), place, splits, steps)?;
    }
    Ok(())
}

/// Gives the items that end past a place their new links, on each of these tracks, which are copies. Each walk begins at the
/// item that holds the place.
pub(crate) fn relink_all<L: Ledger>(
    alloc: Global,
    named: &mut Vec<Track>,
    place: u64,
    splits: &Splits,
    steps: &mut Steps<L>,
) -> Result<(), Memory>
    requires next { All (λ t. t.next_link + unwrap_or (get nat_cmp splits.now.counts t.number) 0
        < 2 ^ 32) named.old.items }
    requires marked { HasMarks splits.now }
    ensures relinked { OnOk result
        (named.new.items ≡ map (relinked_track splits.now place) named.old.items) }
    ensures least { steps.old ≤ steps.new }
    ensures most { 2 * steps.new ≤ 2 * steps.old + 3 * sizes_of named.old.items }
{
    for index in 0..named.len() {
        relink_found(alloc, &mut named[index], place, splits, steps)?;
    }
    Ok(())
}

// Gives the items of one track their new links, and the track its next link number. The walk begins at the item that holds
// the place.
fn relink_found<L: Ledger>(
    alloc: Global,
    track: &mut Track,
    place: u64,
    splits: &Splits,
    steps: &mut Steps<L>,
) -> Result<(), Memory>
    requires next { track.old.next_link
        + unwrap_or (get nat_cmp splits.now.counts track.old.number) 0 < 2 ^ 32 }
    requires marked { HasMarks splits.now }
    ensures relinked { OnOk result (track.new ≡ relinked_track splits.now place track.old) }
    ensures least { steps.old ≤ steps.new }
    ensures most { 2 * steps.new ≤ 2 * steps.old + 3 * size_of track.old }
{
    let start = start_at(track, place, splits, steps);
    relink_track(alloc, track, start, place, splits, steps)
}

// The start at the item that holds the place, where there are links that are split; else at the first.
fn start_at<L: Ledger>(track: &Track, place: u64, splits: &Splits, steps: &mut Steps<L>) -> Start
    ensures start { IsStart place track.now result }
    ensures least { steps.old ≤ steps.new }
    ensures most { steps.new ≤ steps.old + look_of track.now }
{
    let unsplit = splits.numbers.is_empty();
    if unsplit {
        return first();
    }
    if u64::from(track.length()) <= place {
        return first();
    }
    found(track, place as u32, steps)
}

// Gives the items of one track that end past a place their new links, and the track its next link number. The walk begins at
// this start.
fn relink_track<L: Ledger>(
    alloc: Global,
    track: &mut Track,
    start: Start,
    place: u64,
    splits: &Splits,
    steps: &mut Steps<L>,
) -> Result<(), Memory>
    requires next { track.old.next_link
        + unwrap_or (get nat_cmp splits.now.counts track.old.number) 0 < 2 ^ 32 }
    requires start { IsStart place track.old start }
    requires marked { HasMarks splits.now }
    ensures relinked { OnOk result (track.new ≡ relinked_track splits.now place track.old) }
    ensures least { steps.old ≤ steps.new }
    ensures most { steps.new ≤ steps.old + length (items_of track.old.cells) }
{
    relink_cells(alloc, track, start, place, splits, steps)?;
    let count = splits.counts.get(&track.number()).copied().unwrap_or(0);
    track.set_next_link(track.next_link() + count);
    Ok(())
}

// Gives the items their new links, and leaves the track's next link number. Where no link is split, there is nothing to
// do.
fn relink_cells<L: Ledger>(
    alloc: Global,
    track: &mut Track,
    start: Start,
    place: u64,
    splits: &Splits,
    steps: &mut Steps<L>,
) -> Result<(), Memory>
    requires start { IsStart place track.old start }
    requires marked { HasMarks splits.now }
    ensures relinked { OnOk result (track.new ≡ relinked_cells splits.now place track.old) }
    ensures least { steps.old ≤ steps.new }
    ensures most { steps.new ≤ steps.old + length (items_of track.old.cells) }
{
    a_track_is_kept(track);
    if splits.numbers.is_empty() {
        return Ok(());
    }
    let old = track.copy(alloc)?;
    relink_items(alloc, track, &old, start, place, splits, steps)
}

// Reads the items of the track as it was while it gives some of them new links. Pages without a link that is split are
// passed by.
fn relink_items<L: Ledger>(
    alloc: Global,
    track: &mut Track,
    old: &Track,
    start: Start,
    place: u64,
    splits: &Splits,
    steps: &mut Steps<L>,
) -> Result<(), Memory>
    requires same { old.now ≡ track.old }
    requires start { IsStart place old.now start }
    requires marked { HasMarks splits.now }
    ensures relinked { OnOk result (track.new ≡ relinked_cells splits.now place old.now) }
    ensures least { steps.old ≤ steps.new }
    ensures most { steps.new ≤ steps.old + length (items_of old.now.cells) }
{
    a_track_is_kept(old);
    if !old.has_links() {
        return Ok(());
    }
    let count = old.count();
    let mut items = ItemReader::at(old, start.index);
    let mut index = start.index;
    let mut end = start.from;
    while index < count {
        let past = pass_unmarked(old, &mut items, index, u32::MAX, &splits.marks);
        index += past.count;
        end += past.frames;
        let Some(view) = items.next() else {
            return Ok(());
        };
        steps.tick();
        let at = index;
        index += 1;
        end += view.len;
        if u64::from(end) > place {
            relink_item(alloc, track, at, &view, splits)?;
        }
    }
    Ok(())
}

// Gives an item at an index its new link, if its link is split.
fn relink_item(
    alloc: Global,
    track: &mut Track,
    index: u32,
    view: &ItemView,
    splits: &Splits,
) -> Result<(), Memory>
    requires read { slice_get (items_of track.old.cells) index ≡ Some view.now }
    requires kept { IsKept track.old }
    ensures { OnOk result (track.new
        ≡ changed_track track.old index (with_link (given_link splits.now view.now.link))) }
{
    match split_link(view.link, splits) {
        Some(link) => track.set_link(alloc, index, Some(link)),
        None => Ok(()),
    }
}

// A link that is split, with its new number.
fn split_link(link: Option<Link>, splits: &Splits) -> Option<Link>
    ensures split { IfSome result (λ l. given_link splits.now link ≡ Some l) }
    ensures whole { IsNone result → given_link splits.now link ≡ link }
{
    match link {
        Some(link) => match splits.numbers.get(&(link.home, link.number)) {
            Some(number) => Some(Link {
                number: *number,
                ..link
            }),
            None => None,
        },
        None => None,
    }
}
