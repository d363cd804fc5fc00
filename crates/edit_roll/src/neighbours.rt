// The items or gaps at the two sides of a cut or an item, and the delta by which it may move between them.
ghost use Rattle.std.specs.Prelude.{◌≡◌, ◌+◌, ◌≤◌, ◌⊎◌, IfSome, IsNone, false, length, true};
ghost use Rattle.composables.specs.Items.{items_of};
ghost use Rattle.composables.specs.Places.{IsPlaceOf};
ghost use Rattle.composables.specs.Ranges.{is_cut};
ghost use Rattle.composables.specs.Sizes.{size_of};
ghost use Rattle.composables.specs.TrackFacts.{IsKept};
ghost use Rattle.edit_delta.specs.Nearest.{nearest};
ghost use Rattle.edit_delta.specs.Using.{IsUsed};
ghost use Rattle.edit_delta.specs.Parts.{IsWhole};
ghost use Rattle.edit_roll.specs.NeighboursInside.{AreBeside, FitsBetween, StandBeside};
ghost use Rattle.edit_roll.specs.Neighbours.{has_neighbours};
ghost use Rattle.edit_roll.specs.NeighboursInside.{fits_between};

use composables::{ItemView, Place, Table, Track};
use edit_delta::{Used, frames_after, frames_before, used_within};
use std::sync::ledger::Ledger;
use step_count::Steps;

/// An item or gap that ends at a record frame, and one that begins there or later.
#[derive(Clone, Copy)]
pub struct Sides {
    pub left: ItemView,
    pub right: ItemView,
}

/// What stands at the sides of the cut at a place, if there is one.
pub fn sides_of_cut<L: Ledger>(track: &Track, at: u32, steps: &mut Steps<L>) -> Option<Sides>
    requires kept { IsKept track.now }
    ensures sides { IfSome result (λ s. StandBeside track.now.cells at at s) }
    ensures cut { IfSome result (λ s. is_cut track.now.cells at ≡ true) }
    ensures none { IsNone result → is_cut track.now.cells at ≡ false }
    ensures least { steps.old + 1 ≤ steps.new }
    ensures most { steps.new ≤ steps.old + size_of track.now }
{
    let place = match track.item_at(at, steps) {
        Some(place) => place,
        None => return None,
    };
    if place.from < at {
        return None;
    }
    beside(track, place.index, place.index)
}

/// What stands at the sides of the item or gap at a place, if it has a neighbour at both.
pub fn sides_of_item(track: &Track, place: Place) -> Option<Sides>
    requires kept { IsKept track.now }
    requires place { IsPlaceOf track.now.cells place }
    ensures sides { IfSome result (λ s. StandBeside track.now.cells place.from place.to s) }
    ensures some { IfSome result
        (λ s. has_neighbours track.now.cells place.from place.to ≡ true) }
    ensures none { IsNone result
        → has_neighbours track.now.cells place.from place.to ≡ false }
{
    beside(track, place.index, place.index + 1)
}

// What stands before the item or gap with the index `from`, and what has the index `to`.
fn beside(track: &Track, from: u32, to: u32) -> Option<Sides>
    requires { from ≤ length (items_of track.now.cells) }
    ensures sides { IfSome result (λ s. AreBeside (items_of track.now.cells) from to s) }
    ensures none { IsNone result → (from ≡ 0) ⊎ (length (items_of track.now.cells) ≤ to) }
{
    if from == 0 {
        return None;
    }
    let Some(left) = track.item(from - 1) else {
        unreachable!()
    };
    match track.item(to) {
        Some(right) => Some(Sides { left, right }),
        None => None,
    }
}

/// The delta, of the one asked for, by which what stands between these two moves: the one that it comes near keeps a
/// frame, and the other has the frames by which it grows.
pub fn used_between(table: &Table, sides: &Sides, by: i32) -> Used
    requires left { IsWhole table.now sides.now.left }
    requires right { IsWhole table.now sides.now.right }
    ensures used { IsUsed
        (nearest (fits_between table.now sides.now.left sides.now.right) by) result }
    ensures fits { FitsBetween table.now sides.now.left sides.now.right result.way }
{
    let later = (sides.right.len - 1).min(frames_after(table, &sides.left));
    let earlier = (sides.left.len - 1).min(frames_before(table, &sides.right));
    used_within(by, earlier, later)
}
