// Insert and extract: what is put into one track and taken out of it, and moves all that is after it on each named
// track.
ghost use Rattle.std.specs.Prelude.{◌≡◌, ◌+◌, ◌*◌, ◌<◌, ◌≤◌, All, length, nat_eq, slice_get, true};
ghost use Rattle.std.specs.List.{list_any};
ghost use Rattle.composables.specs.Good.{IsGood};
ghost use Rattle.composables.specs.Roomy.{IsRoomy};
ghost use Rattle.composables.specs.Sizes.{sizes_of};
ghost use Rattle.out_of_memory.specs.Answers.{Answers};
ghost use Rattle.edit_insert.specs.Edits.{extract_named, insert_named};
ghost use Rattle.composables.specs.OwnTracks.{numbers_of, track_numbered};
ghost use Rattle.edit_splice.specs.Standing.{EachStaysGood};
ghost use Rattle.composables.specs.TrackSets.{tracks_in};

use crate::sources::source_refusal;
use composables::{Done, EditFault, Extract, Insert, ItemView, Refusal, Table, Track, own_index};
use edit_splice::Shift;
use link_groups::shift_linked;
use std::alloc::Global;
use std::sync::ledger::Ledger;
use step_count::Steps;

/// Puts a new item at the place `at` of its own track, which grows by dark frames up to `at` where it is shorter, and
/// dark frames on each other named track that has the place; what is from there on comes later by the item's length on
/// all named tracks. An item on both sides of the place is cut in two, and its later part gets a number of its own. What
/// comes later gets new links where others of its links stay.
///
/// It answers the number of the new item, or the first of these refusals that holds: `NoMedia`, `EmptyRange`,
/// `MediaEnds`, `LinkOutside` of the least link of what comes later, `TooLong` and `TooManyItems` of the first named
/// track for which it holds.
pub fn insert<L: Ledger>(
    alloc: Global,
    table: &Table,
    named: &mut Vec<Track>,
    call: &Insert,
    steps: &mut Steps<L>,
) -> Result<Done, EditFault>
    requires named { numbers_of named.old.items ≡ tracks_in call.now.tracks }
    requires own { list_any (nat_eq call.now.track) (tracks_in call.now.tracks) ≡ true }
    requires good { All (λ t. IsGood table.now t) named.old.items }
    requires roomy { All (λ t. IsRoomy t) named.old.items }

    ensures answers { Answers (insert_named table.now named.old.items call.now)
        named.old.items named.new.items result }

    ensures named { numbers_of named.new.items ≡ tracks_in call.now.tracks }
    ensures good { All (λ t. IsGood table.now t) named.new.items }

    ensures least { steps.old + 1 ≤ steps.new }
    ensures most { steps.new ≤ steps.old + 32 * sizes_of named.old.items }
{
    steps.tick();
    match own_index(named, call.track) {
        Some(index) => insert_at(alloc, table, named, index, call, steps),
        None => unreachable!(),
    }
}

// Inserts the item, where its own track stands at this index among the named ones.
fn insert_at<L: Ledger>(
    alloc: Global,
    table: &Table,
    named: &mut Vec<Track>,
    index: usize,
    call: &Insert,
    steps: &mut Steps<L>,
) -> Result<Done, EditFault>
    requires within { index < length named.old.items }
    requires found { track_numbered call.now.track named.old.items
        ≡ slice_get named.old.items index }
    requires named { numbers_of named.old.items ≡ tracks_in call.now.tracks }
    requires good { All (λ t. IsGood table.now t) named.old.items }
    requires roomy { All (λ t. IsRoomy t) named.old.items }
    ensures answers { Answers (insert_named table.now named.old.items call.now)
        named.old.items named.new.items result }
    ensures good { EachStaysGood table.now named.old.items named.new.items }
    ensures least { steps.old ≤ steps.new }
    ensures most { steps.new ≤ steps.old + 21 * sizes_of named.old.items }
{
    match source_refusal(table, call.track, call.what, call.from, call.len) {
        Some(refusal) => return Err(EditFault::Refused(refusal)),
        None => {}
    }
    let number = named[index].next_item();
    let made = Shift {
        own: call.track,
        x: call.at,
        y: call.at,
        new: Some(ItemView::clip(number, call.what, call.from, call.len)),
        keep: call.keep,
    };
    let at = u64::from(call.at);
    let len = u64::from(call.len);
    shift_linked(alloc, named, &made, at + len, Done::Item(number), steps)
}

/// Takes an item out of its own track, and moves what is after it earlier on all named tracks, of which each loses the
/// places that the item had. What comes earlier gets new links where others of its links stay. It answers `NoItem` where
/// its own track has no such item, and `LinkOutside` of the least link of what comes earlier that has a track which is
/// not named.
pub fn extract<L: Ledger>(
    alloc: Global,
    table: &Table,
    named: &mut Vec<Track>,
    call: &Extract,
    steps: &mut Steps<L>,
) -> Result<Done, EditFault>
    requires named { numbers_of named.old.items ≡ tracks_in call.now.tracks }
    requires own { list_any (nat_eq call.now.track) (tracks_in call.now.tracks) ≡ true }
    requires good { All (λ t. IsGood table.now t) named.old.items }
    requires roomy { All (λ t. IsRoomy t) named.old.items }

    ensures answers { Answers (extract_named named.old.items call.now)
        named.old.items named.new.items result }

    ensures named { numbers_of named.new.items ≡ tracks_in call.now.tracks }
    ensures good { All (λ t. IsGood table.now t) named.new.items }

    ensures least { steps.old + 1 ≤ steps.new }
    ensures most { steps.new ≤ steps.old + 32 * sizes_of named.old.items }
{
    steps.tick();
    match own_index(named, call.track) {
        Some(index) => extract_at(alloc, table, named, index, call, steps),
        None => unreachable!(),
    }
}

// Takes the item out, where its own track stands at this index among the named ones.
fn extract_at<L: Ledger>(
    alloc: Global,
    table: &Table,
    named: &mut Vec<Track>,
    index: usize,
    call: &Extract,
    steps: &mut Steps<L>,
) -> Result<Done, EditFault>
    requires within { index < length named.old.items }
    requires found { track_numbered call.now.track named.old.items
        ≡ slice_get named.old.items index }
    requires named { numbers_of named.old.items ≡ tracks_in call.now.tracks }
    requires good { All (λ t. IsGood table.now t) named.old.items }
    requires roomy { All (λ t. IsRoomy t) named.old.items }
    ensures answers { Answers (extract_named named.old.items call.now)
        named.old.items named.new.items result }
    ensures good { EachStaysGood table.now named.old.items named.new.items }
    ensures least { steps.old ≤ steps.new }
    ensures most { steps.new ≤ steps.old + 25 * sizes_of named.old.items }
{
    match named[index].item_by_id(call.item, steps) {
        Some(found) => {
            let made = Shift {
                own: call.track,
                x: found.from,
                y: found.to,
                new: None,
                keep: call.keep,
            };
            let place = u64::from(found.from);
            shift_linked(alloc, named, &made, place, Done::Plain, steps)
        }
        None => Err(EditFault::Refused(Refusal::NoItem)),
    }
}
