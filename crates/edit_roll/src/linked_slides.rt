// Why the link of an item does not allow its slide.
ghost use Rattle.std.specs.Prelude.{◌≡◌, ◌+◌, ◌≤◌, ◌-ℤ◌, IfSome, Some, option_map, pos, slice_get};
ghost use Rattle.composables.specs.declared.refusals.Refusal.TheVariants.{LinkBroken};
ghost use Rattle.composables.specs.Good.{IsGood};
ghost use Rattle.composables.specs.Items.{items_of};
ghost use Rattle.composables.specs.Places.{IsPlaceOf};
ghost use Rattle.composables.specs.Sizes.{sizes_of};
ghost use Rattle.edit_delta.specs.Nearest.{nearest};
ghost use Rattle.edit_delta.specs.Using.{IsWayOf};
ghost use Rattle.edit_roll.specs.Sliding.{IsBrokenBy, links_refuse, slide_allows};
ghost use Rattle.link_groups.specs.LinkedItems.{item_of};

use crate::neighbours::{sides_of_item, used_between};
use composables::{Place, Refusal, Slide, Table, Track};
use edit_delta::Way;
use frame_meaning::{Link, Side};
use link_groups::{FoundItem, carried_outside, outside_refusal};
use std::sync::ledger::Ledger;
use step_count::Steps;

/// Why the link of the item, which was looked for on this track, does not allow its slide there, if it does not: a track
/// of the link is not named, or the item would move away from what else has its link. The track is one of the named.
pub fn links_refuse<L: Ledger>(
    table: &Table,
    named: &[Track],
    track: &Track,
    found: Option<FoundItem>,
    call: &Slide,
    steps: &mut Steps<L>,
) -> Option<Refusal>
    requires good { IsGood table.now track.now }
    requires found { item_of track.now call.now.item ≡ option_map (λ f. (f.from, f.view)) found }
    requires read { IfSome found (λ f. slice_get (items_of track.now.cells) f.index ≡ Some f.view) }
    requires number { IfSome found (λ f. f.view.item ≡ Some call.now.item) }
    requires place { IfSome found (λ f. IsPlaceOf track.now.cells
        (record { index = f.index; from = f.from; to = f.to })) }
    ensures refusal { result
        ≡ links_refuse table.now named.now call.now track.now (item_of track.now call.now.item) }
    ensures least { steps.old ≤ steps.new }
    ensures most { steps.new ≤ steps.old + sizes_of named.now }
{
    match found {
        Some(found) => found_link_refuses(table, named, track, found, call, steps),
        None => None,
    }
}

// Why the link of the item that was found does not allow its slide, if it has one that does not.
fn found_link_refuses<L: Ledger>(
    table: &Table,
    named: &[Track],
    track: &Track,
    found: FoundItem,
    call: &Slide,
    steps: &mut Steps<L>,
) -> Option<Refusal>
    requires good { IsGood table.now track.now }
    requires found { item_of track.now call.now.item ≡ Some (found.from, found.view) }
    requires read { slice_get (items_of track.now.cells) found.index ≡ Some found.view }
    requires number { found.view.item ≡ Some call.now.item }
    requires place { IsPlaceOf track.now.cells
        (record { index = found.index; from = found.from; to = found.to }) }
    ensures refusal { result
        ≡ links_refuse table.now named.now call.now track.now (item_of track.now call.now.item) }
    ensures least { steps.old ≤ steps.new }
    ensures most { steps.new ≤ steps.old + sizes_of named.now }
{
    let Some(link) = found.view.link else {
        return None;
    };
    match outside_refusal(named, Some(link)) {
        Some(refusal) => return Some(refusal),
        None => {}
    }
    if !carried_outside(named, link, call.track, call.item, steps) {
        return None;
    }
    let Side::Pic { source, .. } = found.view.first else {
        unreachable!()
    };
    let place = Place {
        index: found.index,
        from: found.from,
        to: found.to,
    };
    let way = way_used(table, track, place, call.by);
    broken_by(link, found.from, source, way)
}

// The delta by which an item at a place would slide, by its way.
fn way_used(table: &Table, track: &Track, found: Place, by: i32) -> Way
    requires good { IsGood table.now track.now }
    requires place { IsPlaceOf track.now.cells found }
    ensures { IsWayOf (nearest (slide_allows table.now track.now found.from found.to) by) result }
{
    match sides_of_item(track, found) {
        Some(sides) => used_between(table, &sides, by).way,
        None => Way::Still,
    }
}

// The refusal of a move away from what else has the link, of an item that shows a source frame at a record frame.
fn broken_by(link: Link, from: u32, source: u32, way: Way) -> Option<Refusal>
    ensures { IsBrokenBy link (pos from -ℤ pos source) way result }
{
    let old = i64::from(from) - i64::from(source);
    match way {
        Way::Still => None,
        Way::Later(frames) => Some(broken(link, old, old + i64::from(frames))),
        Way::Earlier(frames) => Some(broken(link, old, old - i64::from(frames))),
    }
}

// The refusal that tells a link's offset and the one that the item would have after the slide.
fn broken(link: Link, old: i64, new: i64) -> Refusal
    ensures { result ≡ LinkBroken link.home link.number old new }
{
    Refusal::LinkBroken {
        home: link.home,
        number: link.number,
        old,
        new,
    }
}
