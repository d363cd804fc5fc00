// Items in place of a range of one track, within its limits.
ghost use Rattle.std.specs.Prelude.{◌≡◌, ◌+◌, ◌*◌, ◌-◌, ◌<◌, ◌≤◌, length};
ghost use Rattle.composables.specs.Items.{items_of};
ghost use Rattle.composables.specs.Sizes.{look_of, size_of};
ghost use Rattle.composables.specs.Joined.{AllFilled, frames_in};
ghost use Rattle.composables.specs.Roomy.{IsRoomy};
ghost use Rattle.composables.specs.TrackFacts.{IsKept, NumbersBelow};
ghost use Rattle.edit_splice.specs.NewItems.{AreNew};
ghost use Rattle.edit_splice.specs.Splicing.{placed, spliced_track};
ghost use Rattle.out_of_memory.specs.Answers.{Answers};

use crate::counting::count_at;
use crate::seams::seams_of;
use crate::splicing::splice_at;
use composables::{Done, EditFault, ItemView, MAX_FRAMES, MAX_ITEMS, Refusal, Track};
use std::alloc::Global;
use std::sync::ledger::Ledger;
use step_count::Steps;

/// Puts at most two new items and gaps in place of the record frames [x, y) of a track, which is not too long with
/// them; dissolves beside it are kept as far as there is room, or not.
/// It answers `done`, or `TooManyItems` where the track would have too many items and gaps; then, and out of memory,
/// the track is as it was.
pub fn place<L: Ledger>(
    alloc: Global,
    track: &mut Track,
    x: u32,
    y: u32,
    keep: bool,
    items: &[ItemView],
    done: Done,
    steps: &mut Steps<L>,
) -> Result<Done, EditFault>
    // [x, y) is a range of the track, and the track is within its limits.
    requires order { x ≤ y }
    requires within { y ≤ length track.old.cells }
    requires kept { IsKept track.old }
    requires roomy { IsRoomy track.old }
    requires frames { length track.old.cells ≤ MAX_FRAMES }

    // What is put in is new and little, and with it the track is not too long.
    requires few { length items.now ≤ 2 }
    requires new { AreNew track.old.next_item items.now }
    requires numbers { NumbersBelow (track.old.next_item + 1) items.now }
    requires short { x + frames_in items.now + (length track.old.cells - y) ≤ MAX_FRAMES }

    // The track and the answer are those of the splice within the limits, in steps by the items of the track.
    ensures answers { Answers (placed keep track.old x y items.now done)
        track.old track.new result }
    ensures least { steps.old ≤ steps.new }
    ensures most { steps.new ≤ steps.old + 16 * size_of track.old }
{
    splice_within(alloc, track, x, y, keep, items, done, steps)
}

/// Puts items in place of the record frames [x, y) of a track, which is not too long with them, as `splice` or
/// `splice_keeping` does. It looks once for what stands at the ends of the range, and counts before it changes anything.
/// It answers `done`, or `TooManyItems` where the track would have too many items and gaps; then, and out of memory,
/// the track is as it was.
pub fn splice_within<L: Ledger>(
    alloc: Global,
    track: &mut Track,
    x: u32,
    y: u32,
    keep: bool,
    items: &[ItemView],
    done: Done,
    steps: &mut Steps<L>,
) -> Result<Done, EditFault>
    requires order { x ≤ y }
    requires within { y ≤ length track.old.cells }
    requires next { track.old.next_item < 4294967294 }
    requires filled { AllFilled items.now }
    requires numbers { NumbersBelow 4294967294 items.now }
    requires short { x + frames_in items.now + (length track.old.cells - y) ≤ MAX_FRAMES }
    requires kept { length (items_of (spliced_track keep track.old x y items.now).cells) ≤ MAX_ITEMS
        → IsKept (spliced_track keep track.old x y items.now) }

    ensures answers { Answers (placed keep track.old x y items.now done)
        track.old track.new result }

    ensures least { steps.old ≤ steps.new }
    ensures most { steps.new ≤ steps.old + 3 * look_of track.old + 2 * length items.now + 3 }
{
    let seams = seams_of(track, x, y, steps);
    if count_at(track, &seams, x, y, items, steps) > MAX_ITEMS {
        return Err(EditFault::Refused(Refusal::TooManyItems(track.number())));
    }
    splice_at(alloc, track, &seams, x, y, keep, items, steps)?;
    Ok(done)
}
