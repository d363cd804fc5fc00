// Trim: an end of an item moved, and nothing else.
ghost use Rattle.std.specs.Prelude.{◌≡◌, ◌+◌, ◌*◌, ◌≤◌, [], ◌∷◌, All, Some, slice_get};
ghost use Rattle.out_of_memory.specs.Answers.{Answers};
ghost use Rattle.composables.specs.Good.{IsGood};
ghost use Rattle.composables.specs.Items.{items_of};
ghost use Rattle.composables.specs.OwnTracks.{numbers_of};
ghost use Rattle.composables.specs.Places.{IsPlaceOf};
ghost use Rattle.composables.specs.Roomy.{IsRoomy};
ghost use Rattle.composables.specs.Sizes.{size_of, sizes_of};
ghost use Rattle.edit_splice.specs.Standing.{StaysGood};
ghost use Rattle.edit_trim.specs.Trimming.{trim_end, trim_named, trim_track};
ghost use Rattle.composables.specs.declared.calls.End.TheVariants.{Head, Tail};

use crate::darkness::{dark_before, dark_behind};
use composables::{Done, EditFault, End, ItemView, Place, Refusal, Table, Track, Trim};
use edit_delta::{
    Way, frames_after, frames_before, going_on, place_parts, reaching_back, used_within,
};
use std::alloc::Global;
use std::sync::ledger::Ledger;
use step_count::Steps;

/// Moves the head or the tail of an item of the one track that is named by the delta used, and nothing else. A
/// positive delta is later. Frames that the item gives up become dark, and it grows only over dark frames next to it
/// and, where nothing but dark follows, up to the most frames of a track. It keeps a frame, and its source stays in its
/// range.
///
/// It answers the delta used, or the first of these refusals that holds: `NoItem`, `TooManyItems`.
pub fn trim<L: Ledger>(
    alloc: Global,
    table: &Table,
    named: &mut Vec<Track>,
    call: &Trim,
    steps: &mut Steps<L>,
) -> Result<Done, EditFault>
    requires named { numbers_of named.old.items ≡ call.now.track ∷ [] }
    requires good { All (λ t. IsGood table.now t) named.old.items }
    requires roomy { All (λ t. IsRoomy t) named.old.items }

    ensures answers { Answers (trim_named table.now named.old.items call.now)
        named.old.items named.new.items result }

    ensures named { numbers_of named.new.items ≡ call.now.track ∷ [] }
    ensures good { All (λ t. IsGood table.now t) named.new.items }

    ensures least { steps.old + 1 ≤ steps.new }
    ensures most { steps.new ≤ steps.old + 32 * sizes_of named.old.items }
{
    steps.tick();
    trim_track(alloc, table, &mut named[0], call, steps)
}

// Moves the end of the item on the named track, or finds no such item.
fn trim_track<L: Ledger>(
    alloc: Global,
    table: &Table,
    track: &mut Track,
    call: &Trim,
    steps: &mut Steps<L>,
) -> Result<Done, EditFault>
    requires good { IsGood table.now track.old }
    requires roomy { IsRoomy track.old }
    ensures answers { Answers (trim_track table.now call.now track.old) track.old track.new result }
    ensures good { StaysGood table.now track.old track.new }
    ensures least { steps.old ≤ steps.new }
    ensures most { steps.new ≤ steps.old + 20 * size_of track.old }
{
    let Some(found) = track.item_by_id(call.item, steps) else {
        return Err(EditFault::Refused(Refusal::NoItem));
    };
    let Some(view) = track.item(found.index) else {
        unreachable!()
    };
    match call.end {
        End::Head => trim_head(alloc, table, track, found, &view, call.by, steps),
        End::Tail => trim_tail(alloc, table, track, found, &view, call.by, steps),
    }
}

// Moves the head of the item at a place.
fn trim_head<L: Ledger>(
    alloc: Global,
    table: &Table,
    track: &mut Track,
    found: Place,
    view: &ItemView,
    by: i32,
    steps: &mut Steps<L>,
) -> Result<Done, EditFault>
    requires good { IsGood table.now track.old }
    requires roomy { IsRoomy track.old }
    requires place { IsPlaceOf track.old.cells found }
    requires view { slice_get (items_of track.old.cells) found.index ≡ Some view.now }
    ensures answers { Answers (trim_end table.now track.old Head by found.from found.to)
        track.old track.new result }
    ensures good { StaysGood table.now track.old track.new }
    ensures least { steps.old ≤ steps.new }
    ensures most { steps.new ≤ steps.old + 16 * size_of track.old }
{
    let earlier = dark_before(track, found).min(frames_before(table, view));
    let used = used_within(by, earlier, view.len - 1);
    match used.way {
        Way::Still => Ok(used.done),
        Way::Later(frames) => {
            let gap = [ItemView::gap(frames)];
            let to = found.from + frames;
            place_parts(alloc, table, track, found.from, to, &gap, used.done, steps)
        }
        Way::Earlier(frames) => {
            let back = [reaching_back(view, frames)];
            let from = found.from - frames;
            place_parts(
                alloc, table, track, from, found.from, &back, used.done, steps,
            )
        }
    }
}

// Moves the tail of the item at a place.
fn trim_tail<L: Ledger>(
    alloc: Global,
    table: &Table,
    track: &mut Track,
    found: Place,
    view: &ItemView,
    by: i32,
    steps: &mut Steps<L>,
) -> Result<Done, EditFault>
    requires good { IsGood table.now track.old }
    requires roomy { IsRoomy track.old }
    requires place { IsPlaceOf track.old.cells found }
    requires view { slice_get (items_of track.old.cells) found.index ≡ Some view.now }
    ensures answers { Answers (trim_end table.now track.old Tail by found.from found.to)
        track.old track.new result }
    ensures good { StaysGood table.now track.old track.new }
    ensures least { steps.old ≤ steps.new }
    ensures most { steps.new ≤ steps.old + 16 * size_of track.old }
{
    let later = dark_behind(track, found).min(frames_after(table, view));
    let used = used_within(by, view.len - 1, later);
    match used.way {
        Way::Still => Ok(used.done),
        Way::Later(frames) => {
            let on = [going_on(view, frames)];
            let to = (found.to + frames).min(track.length());
            place_parts(alloc, table, track, found.to, to, &on, used.done, steps)
        }
        Way::Earlier(frames) => {
            let gap = [ItemView::gap(frames)];
            let from = found.to - frames;
            place_parts(alloc, table, track, from, found.to, &gap, used.done, steps)
        }
    }
}
