// Remove and slice: what is put into a track without a new item.
ghost use Rattle.std.specs.Prelude.{◌≡◌, ◌+◌, ◌*◌, ◌<◌, ◌≤◌, [], ◌∷◌, All, length};
ghost use Rattle.composables.specs.Good.{IsGood};
ghost use Rattle.composables.specs.OwnTracks.{numbers_of};
ghost use Rattle.composables.specs.Roomy.{IsRoomy};
ghost use Rattle.composables.specs.Sizes.{size_of, sizes_of};
ghost use Rattle.composables.specs.TrackFacts.{IsKept};
ghost use Rattle.out_of_memory.specs.Answers.{Answers};
ghost use Rattle.edit_insert.specs.Edits.{remove_named, remove_track, slice_named, slice_track};

use composables::{Done, EditFault, MAX_FRAMES, Refusal, Remove, Slice, Table, Track};
use edit_splice::{Few, place};
use std::alloc::Global;
use std::sync::ledger::Ledger;
use step_count::Steps;

/// Leaves a gap in place of an item of the one track that is named. It answers `NoItem` where the track has no such
/// item.
pub fn remove<L: Ledger>(
    alloc: Global,
    table: &Table,
    named: &mut Vec<Track>,
    call: &Remove,
    steps: &mut Steps<L>,
) -> Result<Done, EditFault>
    requires named { numbers_of named.old.items ≡ call.now.track ∷ [] }
    requires good { All (λ t. IsGood table.now t) named.old.items }
    requires roomy { All (λ t. IsRoomy t) named.old.items }

    ensures answers { Answers (remove_named named.old.items call.now)
        named.old.items named.new.items result }

    ensures named { numbers_of named.new.items ≡ call.now.track ∷ [] }
    ensures good { All (λ t. IsGood table.now t) named.new.items }

    ensures least { steps.old + 1 ≤ steps.new }
    ensures most { steps.new ≤ steps.old + 32 * sizes_of named.old.items }
{
    steps.tick();
    remove_track(alloc, &mut named[0], call, steps)
}

// Leaves a gap in place of the item on the named track, or finds no such item.
fn remove_track<L: Ledger>(
    alloc: Global,
    track: &mut Track,
    call: &Remove,
    steps: &mut Steps<L>,
) -> Result<Done, EditFault>
    requires kept { IsKept track.old }
    requires frames { length track.old.cells ≤ MAX_FRAMES }
    requires roomy { IsRoomy track.old }
    ensures answers { Answers (remove_track call.now track.old) track.old track.new result }
    ensures least { steps.old ≤ steps.new }
    ensures most { steps.new ≤ steps.old + 20 * size_of track.old }
{
    match track.item_by_id(call.item, steps) {
        Some(found) => {
            let items = Few::of(found.to - found.from, None);
            place(
                alloc,
                track,
                found.from,
                found.to,
                call.keep,
                items.as_slice(),
                Done::Plain,
                steps,
            )
        }
        None => Err(EditFault::Refused(Refusal::NoItem)),
    }
}

/// Cuts the item at a place of the one track that is named in two, and takes away a dissolve that stands there. It
/// answers `NoItem` where the place is not on the track.
pub fn slice<L: Ledger>(
    alloc: Global,
    table: &Table,
    named: &mut Vec<Track>,
    call: &Slice,
    steps: &mut Steps<L>,
) -> Result<Done, EditFault>
    requires named { numbers_of named.old.items ≡ call.now.track ∷ [] }
    requires good { All (λ t. IsGood table.now t) named.old.items }
    requires roomy { All (λ t. IsRoomy t) named.old.items }

    ensures answers { Answers (slice_named named.old.items call.now)
        named.old.items named.new.items result }

    ensures named { numbers_of named.new.items ≡ call.now.track ∷ [] }
    ensures good { All (λ t. IsGood table.now t) named.new.items }

    ensures least { steps.old + 1 ≤ steps.new }
    ensures most { steps.new ≤ steps.old + 32 * sizes_of named.old.items }
{
    steps.tick();
    slice_track(alloc, &mut named[0], call, steps)
}

// Cuts the item at the place of the named track in two, where the track has that place.
fn slice_track<L: Ledger>(
    alloc: Global,
    track: &mut Track,
    call: &Slice,
    steps: &mut Steps<L>,
) -> Result<Done, EditFault>
    requires kept { IsKept track.old }
    requires frames { length track.old.cells ≤ MAX_FRAMES }
    requires roomy { IsRoomy track.old }
    ensures answers { Answers (slice_track call.now track.old) track.old track.new result }
    ensures least { steps.old ≤ steps.new }
    ensures most { steps.new ≤ steps.old + 20 * size_of track.old }
{
    if call.at >= track.length() {
        return Err(EditFault::Refused(Refusal::NoItem));
    }
    place(
        alloc,
        track,
        call.at,
        call.at,
        call.keep,
        &[],
        Done::Plain,
        steps,
    )
}
