// Fill: a new item in a gap of a track.
ghost use Rattle.std.specs.Prelude.{◌≡◌, ◌+◌, ◌-◌, ◌*◌, ◌≤◌, [], ◌∷◌, All, IfSome, length};
ghost use Rattle.std.specs.Prelude.{if◌then◌else◌, option_map};
ghost use Rattle.frame_meaning.specs.Cells.{same_number};
ghost use Rattle.out_of_memory.specs.Answers.{Answers};
ghost use Rattle.composables.specs.Good.{IsGood};
ghost use Rattle.composables.specs.Items.{items_of};
ghost use Rattle.composables.specs.OwnTracks.{numbers_of};
ghost use Rattle.composables.specs.Places.{IsPlaceOf};
ghost use Rattle.composables.specs.Ranges.{gap_at};
ghost use Rattle.composables.specs.Roomy.{IsRoomy};
ghost use Rattle.composables.specs.Sizes.{size_of, sizes_of};
ghost use Rattle.composables.specs.TrackFacts.{IsKept};
ghost use Rattle.edit_insert.specs.Fills.{fill_gap, fill_named, fill_track, frames_asked};
ghost use Rattle.edit_insert.specs.Fills.{refusal_without, why_no_gap};
ghost use Rattle.edit_splice.specs.Standing.{StaysGood};

use crate::sources::{source_refusal, thing_refusal};
use composables::{Done, EditFault, Fill, FillLength, ItemView, Place, Refusal, Table, Track};
use edit_splice::{Few, place};
use std::alloc::Global;
use std::sync::ledger::Ledger;
use step_count::Steps;

/// Puts a new item at the start of the gap that holds the place `at` of the one track that is named: as many of the
/// source frames asked for as the gap has room for, or, for `Sequence`, as many as the gap has frames. `from` is a
/// source frame of `what`.
///
/// It answers the number of the new item, or the first of these refusals that holds: `NoMedia`, `EmptyRange`,
/// `MediaEnds`, `NotAGap`, `TooManyItems`. The source frames are asked for whole, also those that have no room in the
/// gap; for `Sequence` they are asked for where `at` is in a gap.
pub fn fill<L: Ledger>(
    alloc: Global,
    table: &Table,
    named: &mut Vec<Track>,
    call: &Fill,
    steps: &mut Steps<L>,
) -> Result<Done, EditFault>
    requires named { numbers_of named.old.items ≡ call.now.track ∷ [] }
    requires good { All (λ t. IsGood table.now t) named.old.items }
    requires roomy { All (λ t. IsRoomy t) named.old.items }

    ensures answers { Answers (fill_named table.now named.old.items call.now)
        named.old.items named.new.items result }

    ensures named { numbers_of named.new.items ≡ call.now.track ∷ [] }
    ensures good { All (λ t. IsGood table.now t) named.new.items }

    ensures least { steps.old + 1 ≤ steps.new }
    ensures most { steps.new ≤ steps.old + 32 * sizes_of named.old.items }
{
    steps.tick();
    fill_track(alloc, table, &mut named[0], call, steps)
}

// Fills the gap that holds the place `at` of the named track, or refuses the fill.
fn fill_track<L: Ledger>(
    alloc: Global,
    table: &Table,
    track: &mut Track,
    call: &Fill,
    steps: &mut Steps<L>,
) -> Result<Done, EditFault>
    requires good { IsGood table.now track.old }
    requires roomy { IsRoomy track.old }
    ensures answers { Answers (fill_track table.now call.now track.old)
        track.old track.new result }
    ensures good { StaysGood table.now track.old track.new }
    ensures least { steps.old ≤ steps.new }
    ensures most { steps.new ≤ steps.old + 20 * size_of track.old }
{
    match gap_at(track, call.at, steps) {
        Some(gap) => fill_gap(alloc, table, track, call, gap, steps),
        None => Err(EditFault::Refused(why_no_gap(table, track.number(), call))),
    }
}

// Puts the item into this gap, as far as that has room.
fn fill_gap<L: Ledger>(
    alloc: Global,
    table: &Table,
    track: &mut Track,
    call: &Fill,
    gap: Place,
    steps: &mut Steps<L>,
) -> Result<Done, EditFault>
    requires good { IsGood table.now track.old }
    requires roomy { IsRoomy track.old }
    requires gap { IsPlaceOf track.old.cells gap }
    ensures answers { Answers (fill_gap table.now call.now track.old gap.from gap.to)
        track.old track.new result }
    ensures good { StaysGood table.now track.old track.new }
    ensures least { steps.old ≤ steps.new }
    ensures most { steps.new ≤ steps.old + 16 * size_of track.old }
{
    let room = gap.to - gap.from;
    let asked = frames_asked(call.length, room);
    match source_refusal(table, track.number(), call.what, call.from, asked) {
        Some(refusal) => return Err(EditFault::Refused(refusal)),
        None => {}
    }
    let len = asked.min(room);
    let number = track.next_item();
    let item = ItemView::clip(number, call.what, call.from, len);
    let items = Few::of(0, Some(item));
    place(
        alloc,
        track,
        gap.from,
        gap.from + len,
        call.keep,
        items.as_slice(),
        Done::Item(number),
        steps,
    )
}

// The gap that holds a place, if a gap does.
fn gap_at<L: Ledger>(track: &Track, at: u32, steps: &mut Steps<L>) -> Option<Place>
    requires { IsKept track.now }
    ensures gap { gap_at track.now.cells at ≡ option_map (λ p. (p.from, p.to)) result }
    ensures place { IfSome result (λ p. IsPlaceOf track.now.cells p) }
    ensures least { steps.old ≤ steps.new }
    ensures most { steps.new ≤ steps.old + length (items_of track.now.cells) + 64 }
{
    let place = match track.item_at(at, steps) {
        Some(place) => place,
        None => return None,
    };
    let Some(view) = track.item(place.index) else {
        unreachable!()
    };
    gap_of(view.item, place)
}

// The place of what has no item number.
fn gap_of(item: Option<u32>, place: Place) -> Option<Place>
    ensures { result ≡ (if same_number item None then Some place else None) }
{
    match item {
        Some(_) => None,
        None => Some(place),
    }
}

// Why a fill is refused where its place is in no gap.
fn why_no_gap(table: &Table, track: u32, call: &Fill) -> Refusal
    ensures { result ≡ why_no_gap table.now track call.now }
{
    match refusal_without(table, track, call) {
        Some(refusal) => refusal,
        None => Refusal::NotAGap(call.at),
    }
}

// Why its source frames are refused there, if they are.
fn refusal_without(table: &Table, track: u32, call: &Fill) -> Option<Refusal>
    ensures { result ≡ refusal_without table.now track call.now.what call.now.from call.now.length }
{
    match call.length {
        FillLength::Source(len) => source_refusal(table, track, call.what, call.from, len),
        FillLength::Sequence => thing_refusal(table, track, call.what),
    }
}

// How many source frames are asked for, in a gap of this length.
fn frames_asked(length: FillLength, gap: u32) -> u32
    ensures { result ≡ frames_asked length gap }
{
    match length {
        FillLength::Source(len) => len,
        FillLength::Sequence => gap,
    }
}
