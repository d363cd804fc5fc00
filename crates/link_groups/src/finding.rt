// An item of a track by its number.
ghost use Rattle.std.specs.Prelude.{◌≡◌, ◌+◌, ◌≤◌, IfSome, Some, option_map, slice_get};
ghost use Rattle.composables.specs.Items.{items_of};
ghost use Rattle.composables.specs.Sizes.{size_of};
ghost use Rattle.composables.specs.Places.{IsPlaceOf};
ghost use Rattle.composables.specs.Ranges.{range_of, HasNumber};
ghost use Rattle.link_groups.specs.LinkedItems.{item_of};

use composables::{ItemView, Track};
use std::sync::ledger::Ledger;
use step_count::Steps;

/// An item of a track: its index, the record frames [from, to) at which it stands, and the item.
#[derive(Clone, Copy)]
pub struct FoundItem {
    pub index: u32,
    pub from: u32,
    pub to: u32,
    pub view: ItemView,
}

/// The item of a track with this number, or `None` where the track has no such item.
pub fn item_on<L: Ledger>(track: &Track, item: u32, steps: &mut Steps<L>) -> Option<FoundItem>
    ensures found { item_of track.now item ≡ option_map (λ f. (f.from, f.view)) result }
    ensures read { IfSome result (λ f. slice_get (items_of track.now.cells) f.index ≡ Some f.view) }
    ensures number { IfSome result (λ f. f.view.item ≡ Some item) }
    ensures place { IfSome result (λ f. IsPlaceOf track.now.cells
        (record { index = f.index; from = f.from; to = f.to })) }
    ensures has { IfSome result (λ f. HasNumber (items_of track.now.cells) f.index item) }
    ensures range { range_of track.now.cells item ≡ option_map (λ f. (f.from, f.to)) result }
    ensures least { steps.old + 1 ≤ steps.new }
    ensures most { steps.new ≤ steps.old + size_of track.now }
{
    if track.length() == 0 {
        steps.tick();
        return None;
    }
    let Some(place) = track.item_by_id(item, steps) else {
        return None;
    };
    let Some(view) = track.item(place.index) else {
        unreachable!()
    };
    Some(FoundItem {
        index: place.index,
        from: place.from,
        to: place.to,
        view,
    })
}
