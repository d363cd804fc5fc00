// Roll: a cut moved.
ghost use Rattle.std.specs.Prelude.{◌≡◌, ◌+◌, ◌*◌, ◌≤◌, [], ◌∷◌, All};
ghost use Rattle.out_of_memory.specs.Answers.{Answers};
ghost use Rattle.composables.specs.Good.{IsGood};
ghost use Rattle.composables.specs.OwnTracks.{numbers_of};
ghost use Rattle.composables.specs.Roomy.{IsRoomy};
ghost use Rattle.composables.specs.Sizes.{size_of, sizes_of};
ghost use Rattle.edit_splice.specs.Standing.{StaysGood};
ghost use Rattle.edit_roll.specs.NeighboursInside.{StandBeside};
ghost use Rattle.edit_roll.specs.Rolling.{roll_cut, roll_named, roll_track};

use crate::neighbours::{Sides, sides_of_cut, used_between};
use composables::{Done, EditFault, Refusal, Roll, Table, Track};
use edit_delta::{Way, going_on, place_parts, reaching_back};
use std::alloc::Global;
use std::sync::ledger::Ledger;
use step_count::Steps;

/// Moves the cut at a place of the one track that is named by the delta used, and nothing else. A positive delta is
/// later: what stands before the cut goes on, and what stands after it gives way; for a negative delta what stands
/// after it reaches back. Items and gaps grow alike. Both keep a frame, and what grows keeps its source in its range. A
/// dissolve at the cut is dropped.
///
/// It answers the delta used, or the first of these refusals that holds: `NotACut`, `TooManyItems`.
pub fn roll<L: Ledger>(
    alloc: Global,
    table: &Table,
    named: &mut Vec<Track>,
    call: &Roll,
    steps: &mut Steps<L>,
) -> Result<Done, EditFault>
    requires named { numbers_of named.old.items ≡ call.now.track ∷ [] }
    requires good { All (λ t. IsGood table.now t) named.old.items }
    requires roomy { All (λ t. IsRoomy t) named.old.items }

    ensures answers { Answers (roll_named table.now named.old.items call.now)
        named.old.items named.new.items result }

    ensures named { numbers_of named.new.items ≡ call.now.track ∷ [] }
    ensures good { All (λ t. IsGood table.now t) named.new.items }

    ensures least { steps.old + 1 ≤ steps.new }
    ensures most { steps.new ≤ steps.old + 32 * sizes_of named.old.items }
{
    steps.tick();
    roll_track(alloc, table, &mut named[0], call, steps)
}

// Moves the cut at the place of the named track, or finds no cut there.
fn roll_track<L: Ledger>(
    alloc: Global,
    table: &Table,
    track: &mut Track,
    call: &Roll,
    steps: &mut Steps<L>,
) -> Result<Done, EditFault>
    requires good { IsGood table.now track.old }
    requires roomy { IsRoomy track.old }
    ensures answers { Answers (roll_track table.now call.now track.old)
        track.old track.new result }
    ensures good { StaysGood table.now track.old track.new }
    ensures least { steps.old ≤ steps.new }
    ensures most { steps.new ≤ steps.old + 20 * size_of track.old }
{
    match sides_of_cut(track, call.at, steps) {
        Some(sides) => roll_cut(alloc, table, track, call.at, &sides, call.by, steps),
        None => Err(EditFault::Refused(Refusal::NotACut(call.at))),
    }
}

// Moves the cut between these two items or gaps.
fn roll_cut<L: Ledger>(
    alloc: Global,
    table: &Table,
    track: &mut Track,
    at: u32,
    sides: &Sides,
    by: i32,
    steps: &mut Steps<L>,
) -> Result<Done, EditFault>
    requires good { IsGood table.now track.old }
    requires roomy { IsRoomy track.old }
    requires sides { StandBeside track.old.cells at at sides.now }
    ensures answers { Answers (roll_cut table.now track.old by at)
        track.old track.new result }
    ensures good { StaysGood table.now track.old track.new }
    ensures least { steps.old ≤ steps.new }
    ensures most { steps.new ≤ steps.old + 16 * size_of track.old }
{
    let used = used_between(table, sides, by);
    match used.way {
        Way::Still => Ok(used.done),
        Way::Later(frames) => {
            let on = [going_on(&sides.left, frames)];
            let to = at + frames;
            place_parts(alloc, table, track, at, to, &on, used.done, steps)
        }
        Way::Earlier(frames) => {
            let back = [reaching_back(&sides.right, frames)];
            let from = at - frames;
            place_parts(alloc, table, track, from, at, &back, used.done, steps)
        }
    }
}
