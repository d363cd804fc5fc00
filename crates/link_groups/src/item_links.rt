// The link of an item, and whether something else has it.
ghost use Rattle.std.specs.Prelude.{◌≡◌, ◌+◌, ◌≤◌, IfSome, Some, option_map, slice_get};
ghost use Rattle.composables.specs.Items.{items_of};
ghost use Rattle.composables.specs.Places.{IsPlaceOf};
ghost use Rattle.composables.specs.Ranges.{range_of, HasNumber};
ghost use Rattle.composables.specs.Sizes.{size_of, sizes_of};
ghost use Rattle.link_groups.specs.ItemLinks.{carried_on, carried_outside, carries, is_elsewhere, link_of};

use crate::finding::{FoundItem, item_on};
use composables::{ItemReader, ItemView, Track, a_track_is_kept};
use frame_meaning::{Link, same_item};
use std::sync::ledger::Ledger;
use step_count::Steps;

/// The link of the item of a track with this number, if it is there and has one.
pub fn link_of<L: Ledger>(track: &Track, item: u32, steps: &mut Steps<L>) -> Option<Link>
    ensures link { result ≡ link_of track.now item }
    ensures least { steps.old ≤ steps.new }
    ensures most { steps.new ≤ steps.old + size_of track.now }
{
    match item_on(track, item, steps) {
        Some(found) => found.view.link,
        None => None,
    }
}

/// The item of a track with this number, if it is there, and its link, if it has one. It looks for the item once.
pub fn item_with_link<L: Ledger>(
    track: &Track,
    item: u32,
    steps: &mut Steps<L>,
) -> (Option<FoundItem>, Option<Link>)
    ensures link { result.1 ≡ link_of track.now item }
    ensures read { IfSome result.0
        (λ f. slice_get (items_of track.now.cells) f.index ≡ Some f.view) }
    ensures place { IfSome result.0 (λ f. IsPlaceOf track.now.cells
        (record { index = f.index; from = f.from; to = f.to })) }
    ensures has { IfSome result.0 (λ f. HasNumber (items_of track.now.cells) f.index item) }
    ensures range { range_of track.now.cells item ≡ option_map (λ f. (f.from, f.to)) result.0 }
    ensures least { steps.old ≤ steps.new }
    ensures most { steps.new ≤ steps.old + size_of track.now }
{
    let found = item_on(track, item, steps);
    let link = match found {
        Some(found) => found.view.link,
        None => None,
    };
    (found, link)
}

/// Whether what has a link, or none, has this one. Links are told apart by home and number.
pub fn carries(link: Link, other: Option<Link>) -> bool
    ensures { result ≡ carries link other }
{
    match other {
        Some(other) => link.home == other.home && link.number == other.number,
        None => false,
    }
}

/// Whether something on these tracks has the link, outside the item with this number on the track `own`.
pub fn carried_outside<L: Ledger>(
    named: &[Track],
    link: Link,
    own: u32,
    item: u32,
    steps: &mut Steps<L>,
) -> bool
    ensures outside { result ≡ carried_outside link own item named.now }
    ensures least { steps.old ≤ steps.new }
    ensures most { steps.new ≤ steps.old + sizes_of named.now }
{
    for track in named {
        if carried_on(track, link, own, item, steps) {
            return true;
        }
    }
    false
}

// Whether something on this track has the link, outside that item of the track `own`. Pages that have not its key are
// passed by.
fn carried_on<L: Ledger>(
    track: &Track,
    link: Link,
    own: u32,
    item: u32,
    steps: &mut Steps<L>,
) -> bool
    ensures on { result ≡ carried_on link own item track.now }
    ensures least { steps.old ≤ steps.new }
    ensures most { steps.new ≤ steps.old + size_of track.now }
{
    a_track_is_kept(track);
    if !track.has_links() {
        return false;
    }
    let count = track.count();
    let mut items = ItemReader::at(track, 0);
    let mut index: u32 = 0;
    while index < count {
        let passed = items.pass_others(link);
        index += passed.count;
        let Some(view) = items.next() else {
            return false;
        };
        steps.tick();
        if is_elsewhere(link, own, item, track.number(), &view) {
            return true;
        }
        index += 1;
    }
    false
}

// Whether an item or gap of the track with this number has the link, and is not the item of the track `own`.
fn is_elsewhere(link: Link, own: u32, item: u32, number: u32, view: &ItemView) -> bool
    ensures { result ≡ is_elsewhere link own item number view.now.item view.now.link }
{
    carries(link, view.link) && !(number == own && same_item(view.item, Some(item)))
}
