// The link of an item taken away.
ghost use Rattle.std.specs.Prelude.{◌≡◌, ◌+◌, ◌≤◌, [], ◌∷◌, All};
ghost use Rattle.out_of_memory.specs.Answers.{Answers};
ghost use Rattle.composables.specs.Good.{IsGood};
ghost use Rattle.composables.specs.OwnTracks.{numbers_of};
ghost use Rattle.composables.specs.Sizes.{size_of, sizes_of};
ghost use Rattle.link_groups.specs.Linking.{unlink_named, unlink_on};

use crate::finding::item_on;
use composables::{Done, EditFault, Refusal, Table, Track, Unlink};
use std::alloc::Global;
use std::sync::ledger::Ledger;
use step_count::Steps;

/// Takes the link from an item of the one track that is named; an item without one stays as it is. The other items of
/// the link keep it. It answers `NoItem` where the track has no such item. Out of memory, the track is as it was.
pub fn unlink<L: Ledger>(
    alloc: Global,
    table: &Table,
    named: &mut Vec<Track>,
    call: &Unlink,
    steps: &mut Steps<L>,
) -> Result<Done, EditFault>
    requires named { numbers_of named.old.items ≡ call.now.track ∷ [] }
    requires good { All (λ t. IsGood table.now t) named.old.items }

    ensures answers { Answers (unlink_named named.old.items call.now)
        named.old.items named.new.items result }

    ensures named { numbers_of named.new.items ≡ call.now.track ∷ [] }
    ensures good { All (λ t. IsGood table.now t) named.new.items }

    ensures least { steps.old + 1 ≤ steps.new }
    ensures most { steps.new ≤ steps.old + sizes_of named.old.items }
{
    unlink_track(alloc, table, &mut named[0], call, steps)
}

// Takes the link from the item on the named track, or finds no such item.
fn unlink_track<L: Ledger>(
    alloc: Global,
    table: &Table,
    track: &mut Track,
    call: &Unlink,
    steps: &mut Steps<L>,
) -> Result<Done, EditFault>
    requires good { IsGood table.now track.old }
    ensures answers { Answers (unlink_on call.now track.old) track.old track.new result }
    ensures good { IsGood table.now track.new }
    ensures number { track.new.number ≡ track.old.number }
    ensures least { steps.old + 1 ≤ steps.new }
    ensures most { steps.new ≤ steps.old + size_of track.old }
{
    let Some(found) = item_on(track, call.item, steps) else {
        return Err(EditFault::Refused(Refusal::NoItem));
    };
    track.set_link(alloc, found.index, None)?;
    Ok(Done::Plain)
}
