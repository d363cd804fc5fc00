// Overwrite: a new item over places of a track.
ghost use Rattle.std.specs.Prelude.{◌≡◌, ◌+◌, ◌*◌, ◌<◌, ◌≤◌, [], ◌∷◌, All, length};
ghost use Rattle.composables.specs.Good.{IsGood};
ghost use Rattle.composables.specs.OwnTracks.{numbers_of};
ghost use Rattle.composables.specs.Roomy.{IsRoomy};
ghost use Rattle.composables.specs.Sizes.{size_of, sizes_of};
ghost use Rattle.out_of_memory.specs.Answers.{Answers};
ghost use Rattle.edit_insert.specs.Edits.{overwrite_named, overwrite_track};
ghost use Rattle.edit_splice.specs.Standing.{StaysGood};

use crate::sources::source_refusal;
use composables::{Done, EditFault, ItemView, MAX_FRAMES, Overwrite, Refusal, Table, Track};
use edit_splice::{Few, place};
use std::alloc::Global;
use std::sync::ledger::Ledger;
use step_count::Steps;

/// Puts a new item over the places [at, at + len) of the one track that is named, which grows by dark frames up to
/// `at` where it is shorter, and by the new item where that reaches past its end. An item that stood on both sides is
/// cut in two, and its later part gets the number after the new item's. `from` is a source frame of `what`. Dissolves
/// beside the new item are dropped where it leaves them no room, or with `keep` made as short as it leaves them.
///
/// It answers the number of the new item, or the first of these refusals that holds: `NoMedia`, `EmptyRange`,
/// `MediaEnds`, `TooLong`, `TooManyItems`.
pub fn overwrite<L: Ledger>(
    alloc: Global,
    table: &Table,
    named: &mut Vec<Track>,
    call: &Overwrite,
    steps: &mut Steps<L>,
) -> Result<Done, EditFault>
    requires named { numbers_of named.old.items ≡ call.now.track ∷ [] }
    requires good { All (λ t. IsGood table.now t) named.old.items }
    requires roomy { All (λ t. IsRoomy t) named.old.items }

    ensures answers { Answers (overwrite_named table.now named.old.items call.now)
        named.old.items named.new.items result }

    ensures named { numbers_of named.new.items ≡ call.now.track ∷ [] }
    ensures good { All (λ t. IsGood table.now t) named.new.items }

    ensures least { steps.old + 1 ≤ steps.new }
    ensures most { steps.new ≤ steps.old + 32 * sizes_of named.old.items }
{
    steps.tick();
    overwrite_track(alloc, table, &mut named[0], call, steps)
}

// Puts the new item over the places of the named track, or refuses it.
fn overwrite_track<L: Ledger>(
    alloc: Global,
    table: &Table,
    track: &mut Track,
    call: &Overwrite,
    steps: &mut Steps<L>,
) -> Result<Done, EditFault>
    requires good { IsGood table.now track.old }
    requires roomy { IsRoomy track.old }
    ensures answers { Answers (overwrite_track table.now call.now track.old)
        track.old track.new result }
    ensures good { StaysGood table.now track.old track.new }
    ensures least { steps.old ≤ steps.new }
    ensures most { steps.new ≤ steps.old + 16 * size_of track.old }
{
    match source_refusal(table, track.number(), call.what, call.from, call.len) {
        Some(refusal) => return Err(EditFault::Refused(refusal)),
        None => {}
    }
    if u64::from(call.at) + u64::from(call.len) > u64::from(MAX_FRAMES) {
        return Err(EditFault::Refused(Refusal::TooLong(track.number())));
    }
    let length = track.length();
    let number = track.next_item();
    let item = ItemView::clip(number, call.what, call.from, call.len);
    let items = Few::of(call.at.saturating_sub(length), Some(item));
    place(
        alloc,
        track,
        call.at.min(length),
        (call.at + call.len).min(length),
        call.keep,
        items.as_slice(),
        Done::Item(number),
        steps,
    )
}
