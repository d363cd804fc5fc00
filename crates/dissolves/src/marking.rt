// Dissolves put at cuts and taken away.
ghost use Rattle.std.specs.Prelude.{◌≡◌, ◌+◌, ◌<◌, ◌≤◌, [], ◌∷◌, All, length, map, nat_eq, sum_by};
ghost use Rattle.composables.specs.Items.{items_of};
ghost use Rattle.composables.specs.Good.{IsGood};
ghost use Rattle.composables.specs.TrackState.{TrackState};
ghost use Rattle.out_of_memory.specs.Answers.{Answers};
ghost use Rattle.dissolves.specs.Marking.{dissolve_named, dissolve_on, undissolve_named, undissolve_on};

use crate::cuts::{cut_at, room_refusal};
use composables::{Dissolve, Done, EditFault, Refusal, Table, Track, Undissolve};
use frame_meaning::Mark;
use std::alloc::Global;
use std::sync::ledger::Ledger;
use step_count::Steps;

/// Puts a dissolve at the cut at `at` of the one track that is named, from `a` frames before the cut to `b` frames
/// after it, in place of an earlier one there. Beside a gap it is a fade. Out of memory, the track is as it was.
///
/// It answers the first of these refusals that holds: `EmptyRange`, where it has no frame; `NotACut`; `DissolveRoom` of
/// the left side, and else of the right, where that side is a nest, is too short for its frames and those of the
/// dissolve at its other end, or has too few source frames.
pub fn dissolve<L: Ledger>(
    alloc: Global,
    table: &Table,
    named: &mut Vec<Track>,
    call: &Dissolve,
    steps: &mut Steps<L>,
) -> Result<Done, EditFault>
    requires named { map (λ (t : TrackState). t.number) named.old.items ≡ call.now.track ∷ [] }
    requires good { All (λ t. IsGood table.now t) named.old.items }

    ensures answers { Answers (dissolve_named table.now named.old.items call.now)
        named.old.items named.new.items result }

    ensures named { map (λ (t : TrackState). t.number) named.new.items ≡ call.now.track ∷ [] }
    ensures good { All (λ t. IsGood table.now t) named.new.items }

    ensures least { steps.old + 1 ≤ steps.new }
    ensures most { steps.new
        ≤ steps.old + sum_by (λ t. length (items_of t.cells) + 64) named.old.items }
{
    dissolve_track(alloc, table, &mut named[0], call, steps)
}

/// Takes the dissolve at `at` of the one track that is named away. It is refused by `NotACut` where none stands there.
/// Out of memory, the track is as it was.
pub fn undissolve<L: Ledger>(
    alloc: Global,
    table: &Table,
    named: &mut Vec<Track>,
    call: &Undissolve,
    steps: &mut Steps<L>,
) -> Result<Done, EditFault>
    requires named { map (λ (t : TrackState). t.number) named.old.items ≡ call.now.track ∷ [] }
    requires good { All (λ t. IsGood table.now t) named.old.items }

    ensures answers { Answers (undissolve_named named.old.items call.now)
        named.old.items named.new.items result }

    ensures named { map (λ (t : TrackState). t.number) named.new.items ≡ call.now.track ∷ [] }
    ensures good { All (λ t. IsGood table.now t) named.new.items }

    ensures least { steps.old + 1 ≤ steps.new }
    ensures most { steps.new
        ≤ steps.old + sum_by (λ t. length (items_of t.cells) + 64) named.old.items }
{
    undissolve_track(alloc, table, &mut named[0], call, steps)
}

// Puts the dissolve at the cut of the named track, or refuses it.
fn dissolve_track<L: Ledger>(
    alloc: Global,
    table: &Table,
    track: &mut Track,
    call: &Dissolve,
    steps: &mut Steps<L>,
) -> Result<Done, EditFault>
    requires good { IsGood table.now track.old }

    ensures answers { Answers (dissolve_on table.now track.old call.now)
        track.old track.new result }

    ensures good { IsGood table.now track.new }
    ensures number { track.new.number ≡ track.old.number }

    ensures least { steps.old + 1 ≤ steps.new }
    ensures most { steps.new ≤ steps.old + length (items_of track.old.cells) + 64 }
{
    let mark = Mark {
        a: call.a,
        b: call.b,
    };
    if is_empty(mark) {
        steps.tick();
        return Err(EditFault::Refused(Refusal::EmptyRange));
    }
    let Some(cut) = cut_at(track, call.at, steps) else {
        return Err(EditFault::Refused(Refusal::NotACut(call.at)));
    };
    match room_refusal(table, cut, mark) {
        Some(refusal) => return Err(EditFault::Refused(refusal)),
        None => {}
    }
    track.set_mark(alloc, cut.index, Some(mark))?;
    Ok(Done::Plain)
}

// Takes the dissolve at the place of the named track away, or finds none there.
fn undissolve_track<L: Ledger>(
    alloc: Global,
    table: &Table,
    track: &mut Track,
    call: &Undissolve,
    steps: &mut Steps<L>,
) -> Result<Done, EditFault>
    requires good { IsGood table.now track.old }

    ensures answers { Answers (undissolve_on track.old call.now) track.old track.new result }

    ensures good { IsGood table.now track.new }
    ensures number { track.new.number ≡ track.old.number }

    ensures least { steps.old + 1 ≤ steps.new }
    ensures most { steps.new ≤ steps.old + length (items_of track.old.cells) + 64 }
{
    let Some(cut) = cut_at(track, call.at, steps) else {
        return Err(EditFault::Refused(Refusal::NotACut(call.at)));
    };
    if cut.right.mark.is_none() {
        return Err(EditFault::Refused(Refusal::NotACut(call.at)));
    }
    track.set_mark(alloc, cut.index, None)?;
    Ok(Done::Plain)
}

// Whether a dissolve has no frame on either side of its cut.
fn is_empty(mark: Mark) -> bool
    ensures { result ≡ nat_eq (mark.a + mark.b) 0 }
{
    mark.a == 0 && mark.b == 0
}
