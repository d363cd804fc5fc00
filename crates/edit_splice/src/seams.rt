// The items and gaps at the two ends of a range of a track.
ghost use Rattle.std.specs.Prelude.{◌≡◌, ◌+◌, ◌*◌, ◌-◌, ◌<◌, ◌≤◌, IfSome, IsNone, length};
ghost use Rattle.composables.specs.Items.{items_of};
ghost use Rattle.composables.specs.Sizes.{look_of};
ghost use Rattle.edit_splice.specs.Parts.{AreSeams, EndsAt, Stands, StandsFrom, view_after};

use composables::{ItemView, Track};
use std::sync::ledger::Ledger;
use step_count::Steps;

/// An item or gap of a track, its index, and the record frame at which it begins.
#[derive(Clone, Copy)]
pub struct ItemAt {
    pub index: u32,
    pub from: u32,
    pub view: ItemView,
}

/// What stands at the ends of a range: the item or gap of the last frame before it, if there is one; that of the first
/// frame after it, if there is one; and the one after that.
#[derive(Clone, Copy)]
pub struct Seams {
    pub left: Option<ItemAt>,
    pub right: Option<ItemAt>,
    pub after: Option<ItemView>,
}

/// What stands at the ends of the range [x, y).
pub fn seams_of<L: Ledger>(track: &Track, x: u32, y: u32, steps: &mut Steps<L>) -> Seams
    requires order { x ≤ y }
    requires within { y ≤ length track.now.cells }
    ensures seams { AreSeams track.now.cells x y result }
    ensures least { steps.old ≤ steps.new }
    ensures most { steps.new ≤ steps.old + 2 * look_of track.now }
{
    let left = last_before(track, x, steps);
    let right = first_from(track, y, steps);
    let after = item_after(track, right);
    Seams { left, right, after }
}

// The item or gap of the last frame before `x`, if there is one.
fn last_before<L: Ledger>(track: &Track, x: u32, steps: &mut Steps<L>) -> Option<ItemAt>
    requires { x ≤ length track.now.cells }
    ensures ends { EndsAt track.now.cells x result }
    ensures least { steps.old ≤ steps.new }
    ensures most { steps.new ≤ steps.old + look_of track.now }
{
    if x == 0 {
        return None;
    }
    held_at(track, x - 1, steps)
}

// The item or gap of the frame `y`, if the track has it.
fn first_from<L: Ledger>(track: &Track, y: u32, steps: &mut Steps<L>) -> Option<ItemAt>
    ensures stands { StandsFrom track.now.cells y result }
    ensures least { steps.old ≤ steps.new }
    ensures most { steps.new ≤ steps.old + look_of track.now }
{
    held_at(track, y, steps)
}

// The item or gap that holds a place.
fn held_at<L: Ledger>(track: &Track, at: u32, steps: &mut Steps<L>) -> Option<ItemAt>
    ensures stands { IfSome result (λ h. Stands (items_of track.now.cells) at h) }
    ensures none { IsNone result → length track.now.cells ≤ at }
    ensures least { steps.old ≤ steps.new }
    ensures most { steps.new ≤ steps.old + look_of track.now }
{
    let place = track.item_at(at, steps)?;
    let view = track.item(place.index)?;
    Some(ItemAt {
        index: place.index,
        from: place.from,
        view,
    })
}

// The item or gap that follows this one, if one does.
fn item_after(track: &Track, held: Option<ItemAt>) -> Option<ItemView>
    requires { IfSome held (λ h. h.index < length (items_of track.now.cells)) }
    ensures { result ≡ view_after (items_of track.now.cells) held }
{
    let count = track.count();
    let held = held?;
    if held.index + 1 < count {
        track.item(held.index + 1)
    } else {
        None
    }
}
