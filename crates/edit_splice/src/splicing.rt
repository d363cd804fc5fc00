// Splice: items in place of a range of a track.
ghost use Rattle.std.specs.Prelude.{◌≡◌, ◌+◌, ◌*◌, ◌<◌, ◌≤◌, OnOk, OnErr, false, length, true};
ghost use Rattle.composables.specs.Sizes.{look_of};
ghost use Rattle.composables.specs.Joined.{AllFilled};
ghost use Rattle.composables.specs.TrackFacts.{IsKept, NumbersBelow};
ghost use Rattle.edit_splice.specs.Parts.{AreSeams};
ghost use Rattle.edit_splice.specs.Splicing.{spliced_track};

use crate::parts::{end_index, first_index, parts_between};
use crate::seams::{Seams, seams_of};
use composables::{ItemView, Memory, Track, a_track_is_kept, number_past_all};
use std::alloc::Global;
use std::sync::ledger::Ledger;
use step_count::Steps;

/// Puts items in place of the record frames [x, y) of a track.
///
/// A dissolve stays where its cut is before x and it ends by x, or where its cut is past y and it begins at y or later;
/// each other is dropped. An item that stood on both sides is cut in two, and its later part takes the next item number,
/// after the new items have taken theirs. Cells of one item, or dark ones, that meet are one item or gap.
///
/// What it leaves must be a track. Items that hold `AreNew` may be put in place of any range.
pub fn splice<L: Ledger>(
    alloc: Global,
    track: &mut Track,
    x: u32,
    y: u32,
    items: &[ItemView],
    steps: &mut Steps<L>,
) -> Result<(), Memory>
    requires order { x ≤ y }
    requires within { y ≤ length track.old.cells }
    requires next { track.old.next_item < 4294967294 }
    requires filled { AllFilled items.now }
    requires numbers { NumbersBelow 4294967294 items.now }
    requires kept { IsKept (spliced_track false track.old x y items.now) }

    ensures ok { OnOk result (track.new ≡ spliced_track false track.old x y items.now) }
    ensures err { OnErr result (track.new ≡ track.old) }

    ensures least { steps.old + 1 ≤ steps.new }
    ensures most { steps.new ≤ steps.old + 6 * look_of track.old + length items.now }
{
    splice_by(alloc, track, x, y, false, items, steps)
}

/// Puts items in place of the record frames [x, y) as `splice` does, but dissolves beside the range stay as far as it
/// leaves them room: one whose cut is before x ends by x at the latest, and one whose cut is past y begins at y at the
/// earliest. One whose cut is within the range or at an end of it is dropped.
pub fn splice_keeping<L: Ledger>(
    alloc: Global,
    track: &mut Track,
    x: u32,
    y: u32,
    items: &[ItemView],
    steps: &mut Steps<L>,
) -> Result<(), Memory>
    requires order { x ≤ y }
    requires within { y ≤ length track.old.cells }
    requires next { track.old.next_item < 4294967294 }
    requires filled { AllFilled items.now }
    requires numbers { NumbersBelow 4294967294 items.now }
    requires kept { IsKept (spliced_track true track.old x y items.now) }

    ensures ok { OnOk result (track.new ≡ spliced_track true track.old x y items.now) }
    ensures err { OnErr result (track.new ≡ track.old) }

    ensures least { steps.old + 1 ≤ steps.new }
    ensures most { steps.new ≤ steps.old + 6 * look_of track.old + length items.now }
{
    splice_by(alloc, track, x, y, true, items, steps)
}

// A splice that keeps dissolves as far as there is room for them, or one that does not.
pub(crate) fn splice_by<L: Ledger>(
    alloc: Global,
    track: &mut Track,
    x: u32,
    y: u32,
    keep: bool,
    items: &[ItemView],
    steps: &mut Steps<L>,
) -> Result<(), Memory>
    requires order { x ≤ y }
    requires within { y ≤ length track.old.cells }
    requires next { track.old.next_item < 4294967294 }
    requires filled { AllFilled items.now }
    requires numbers { NumbersBelow 4294967294 items.now }
    requires kept { IsKept (spliced_track keep track.old x y items.now) }
    ensures ok { OnOk result (track.new ≡ spliced_track keep track.old x y items.now) }
    ensures err { OnErr result (track.new ≡ track.old) }
    ensures least { steps.old + 1 ≤ steps.new }
    ensures most { steps.new ≤ steps.old + 6 * look_of track.old + length items.now }
{
    steps.tick();
    let seams = seams_of(track, x, y, steps);
    splice_at(alloc, track, &seams, x, y, keep, items, steps)
}

// The splice of `splice_by`, where it is known what stands at the ends of the range.
pub(crate) fn splice_at<L: Ledger>(
    alloc: Global,
    track: &mut Track,
    seams: &Seams,
    x: u32,
    y: u32,
    keep: bool,
    items: &[ItemView],
    steps: &mut Steps<L>,
) -> Result<(), Memory>
    // [x, y) is a range of the track, with these items and gaps at its ends.
    requires seams { AreSeams track.old.cells x y seams.now }
    requires order { x ≤ y }
    requires within { y ≤ length track.old.cells }

    // There is a number left for an item that is cut in two, and what the splice leaves is a track.
    requires next { track.old.next_item < 4294967294 }
    requires filled { AllFilled items.now }
    requires numbers { NumbersBelow 4294967294 items.now }
    requires kept { IsKept (spliced_track keep track.old x y items.now) }

    // The track is spliced, or as it was where memory runs out.
    ensures ok { OnOk result (track.new ≡ spliced_track keep track.old x y items.now) }
    ensures err { OnErr result (track.new ≡ track.old) }

    // It looks at what is put in and at the ends of the range alone.
    ensures least { steps.old ≤ steps.new }
    ensures most { steps.new ≤ steps.old + look_of track.old + length items.now + 3 }
{
    a_track_is_kept(track);
    let fresh = number_past_all(track.next_item(), items);
    let parts = parts_between(alloc, seams, x, y, keep, items, fresh)?;
    let from = first_index(seams.left);
    let to = end_index(seams, track.count());
    track.replace(from, to, parts, steps)
}
