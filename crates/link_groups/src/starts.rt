// Where a walk over a track begins that wants what ends past a record frame.
ghost use Rattle.std.specs.Prelude.{◌≡◌, ◌+◌, ◌≤◌, ℕ};
ghost use Rattle.composables.specs.Good.{AllUnlinked};
ghost use Rattle.composables.specs.Items.{items_of};
ghost use Rattle.composables.specs.Sizes.{look_of};
ghost use Rattle.composables.specs.TrackState.{TrackState};
ghost use Rattle.link_groups.specs.Starts.{IsNear, IsStart};

use composables::Track;
use std::sync::ledger::Ledger;
use step_count::Steps;

/// The index of an item or gap, and the record frame at which it begins.
#[derive(Clone, Copy)]
pub struct Start {
    pub index: u32,
    pub from: u32,
}

/// The start at the first item or gap.
pub fn first() -> Start
    ensures { (y : ℕ) (t : TrackState) → IsStart y t result }
{
    Start { index: 0, from: 0 }
}

/// The start at the item or gap that holds the record frame `y`, where the track has links and that place; else at the
/// first.
pub fn found<L: Ledger>(track: &Track, y: u32, steps: &mut Steps<L>) -> Start
    ensures start { IsStart y track.now result }
    ensures near { (AllUnlinked (items_of track.now.cells) → ⊥) → IsNear y track.now result }
    ensures least { steps.old ≤ steps.new }
    ensures most { steps.new ≤ steps.old + look_of track.now }
{
    if !track.has_links() {
        return first();
    }
    match track.item_at(y, steps) {
        Some(place) => Start {
            index: place.index,
            from: place.from,
        },
        None => first(),
    }
}
