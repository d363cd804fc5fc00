// Items of several tracks linked.
ghost use Rattle.std.specs.Prelude.{◌≡◌, ◌+◌, ◌<◌, ◌≤◌, All, None, OnOk, Some, length, true};
ghost use Rattle.frame_meaning.specs.declared.cells.Link.{Link};
ghost use Rattle.out_of_memory.specs.Answers.{Answers};
ghost use Rattle.composables.specs.Good.{IsGood, IsLinkOf};
ghost use Rattle.composables.specs.OwnTracks.{numbers_of};
ghost use Rattle.composables.specs.Roomy.{IsRoomy};
ghost use Rattle.composables.specs.Sizes.{size_of, sizes_of};
ghost use Rattle.composables.specs.TrackSets.{tracks_in};
ghost use Rattle.link_groups.specs.FoundItems.{AreFound, already_found, found_differ, offset_found};
ghost use Rattle.link_groups.specs.Linking.{all_linked, are_there, link_named, link_refusal};

use crate::finding::{FoundItem, item_on};
use crate::offsets::offset;
use composables::{Done, EditFault, ItemView, Link3, Memory, Refusal, Table, Track, copies_of};
use frame_meaning::{Link, Side};
use std::alloc::Global;
use std::sync::ledger::Ledger;
use step_count::Steps;

// The most tracks that can be named.
const MOST_TRACKS: usize = 32;

// What stands where no item was looked for.
const NOT_LOOKED_FOR: FoundItem = FoundItem {
    index: 0,
    from: 0,
    to: 0,
    view: ItemView {
        item: None,
        first: Side::Dark,
        len: 0,
        mark: None,
        link: None,
    },
};

/// Links items, one on each named track, in the order of the tracks, which must have one offset and no link yet. Their
/// new link has the lowest named track as its home, the next link number of that track, and the named tracks. Out of
/// memory, the tracks are as they were.
///
/// It answers the link, or the first of these refusals that holds: `NoTrack(0)`, where no track is named; `NoItem`,
/// also where there is not one item for each named track; `OffsetsDiffer`; `AlreadyLinked`.
pub fn link<L: Ledger>(
    alloc: Global,
    table: &Table,
    named: &mut Vec<Track>,
    call: &Link3,
    steps: &mut Steps<L>,
) -> Result<Done, EditFault>
    requires named { numbers_of named.old.items ≡ tracks_in call.now.tracks }
    requires good { All (λ t. IsGood table.now t) named.old.items }
    requires roomy { All (λ t. IsRoomy t) named.old.items }

    ensures answers { Answers (link_named named.old.items call.now)
        named.old.items named.new.items result }

    ensures named { numbers_of named.new.items ≡ tracks_in call.now.tracks }
    ensures good { All (λ t. IsGood table.now t) named.new.items }

    ensures least { steps.old + 1 ≤ steps.new }
    ensures most { steps.new ≤ steps.old + 1 + sizes_of named.old.items }
{
    steps.tick();
    let items = call.items.as_slice();
    let mut found = [NOT_LOOKED_FOR; MOST_TRACKS];
    let found_all = find_all(named, items, &mut found, steps);
    match link_refusal(named, items, found_all, &found) {
        Some(refusal) => return Err(EditFault::Refused(refusal)),
        None => {}
    }
    let first = &named[0];
    let home = first.number();
    let number = first.next_link();
    let made = Link {
        home,
        number,
        tracks: call.tracks,
    };
    let mut linked = copies_of(alloc, named)?;
    link_all(alloc, table, &mut linked, items, &found, made)?;
    linked[0].set_next_link(number + 1);
    *named = linked;
    Ok(Done::Linked { home, number })
}

// Looks for these items, one on each named track, and tells whether all are there. Each is looked for once, and no memory
// is taken for what is found, so that a refusal needs none.
fn find_all<L: Ledger>(
    named: &[Track],
    items: &[u32],
    found: &mut [FoundItem],
    steps: &mut Steps<L>,
) -> bool
    requires room { length named.now ≤ length found.old }
    ensures there { result ≡ are_there named.now items.now }
    ensures found { result ≡ true → AreFound named.now items.now found.new }
    ensures room { length found.new ≡ length found.old }
    ensures least { steps.old ≤ steps.new }
    ensures most { steps.new ≤ steps.old + sizes_of named.now }
{
    if named.len() != items.len() {
        return false;
    }
    for (index, track) in named.iter().enumerate() {
        match item_on(track, items[index], steps) {
            Some(item) => found[index] = item,
            None => return false,
        }
    }
    true
}

// Why these items can't be linked, if they can't.
fn link_refusal(
    named: &[Track],
    items: &[u32],
    found_all: bool,
    found: &[FoundItem],
) -> Option<Refusal>
    requires there { found_all ≡ are_there named.now items.now }
    requires found { found_all ≡ true → AreFound named.now items.now found.now }
    requires room { length named.now ≤ length found.now }
    ensures refusal { result ≡ link_refusal named.now items.now }
{
    if named.is_empty() {
        return Some(Refusal::NoTrack(0));
    }
    if !found_all {
        return Some(Refusal::NoItem);
    }
    let found = &found[..named.len()];
    match offsets_differ(found) {
        Some(refusal) => Some(refusal),
        None => already_linked(named, items, found),
    }
}

// The refusal for the first item whose offset is not that of the first, with both offsets.
fn offsets_differ(found: &[FoundItem]) -> Option<Refusal>
    requires some { 0 < length found.now }
    ensures refusal { result ≡ found_differ found.now }
{
    let first = offset_found(&found[0]);
    for item in found {
        let own = offset_found(item);
        if own != first {
            return Some(Refusal::OffsetsDiffer(first, own));
        }
    }
    None
}

// The offset of an item that was found: its record frame less its source frame.
fn offset_found(found: &FoundItem) -> i64
    ensures { result ≡ offset_found found.now }
{
    offset(&found.view, found.from).unwrap_or(0)
}

// The refusal for the first item that has a link.
fn already_linked(named: &[Track], items: &[u32], found: &[FoundItem]) -> Option<Refusal>
    requires each { length named.now ≡ length items.now }
    requires all { length named.now ≡ length found.now }
    ensures refusal { result ≡ already_found named.now items.now found.now }
{
    for (index, track) in named.iter().enumerate() {
        if found[index].view.link.is_some() {
            return Some(Refusal::AlreadyLinked {
                track: track.number(),
                item: items[index],
            });
        }
    }
    None
}

// Gives each of these items a link, on copies of their tracks.
fn link_all(
    alloc: Global,
    table: &Table,
    named: &mut Vec<Track>,
    items: &[u32],
    found: &[FoundItem],
    made: Link,
) -> Result<(), Memory>
    requires good { All (λ t. IsGood table.now t) named.old.items }
    requires there { are_there named.old.items items.now ≡ true }
    requires found { AreFound named.old.items items.now found.now }
    requires each { length items.now ≤ length found.now }
    requires of { All (λ t. IsLinkOf t.number (Some made)) named.old.items }
    ensures linked { OnOk result
        (named.new.items ≡ all_linked made named.old.items items.now) }
{
    for index in 0..items.len() {
        named[index].set_link(alloc, found[index].index, Some(made))?;
    }
    Ok(())
}
