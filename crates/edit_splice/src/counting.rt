// How many items and gaps a splice leaves, told before anything is changed.
ghost use Rattle.std.specs.Prelude.{◌≡◌, ◌+◌, ◌*◌, ◌-◌, ◌<◌, ◌≤◌, ◌^◌, ◌++◌, Bool, length};
ghost use Rattle.std.specs.Option.{option_to_list};
ghost use Rattle.composables.specs.Items.{items_of};
ghost use Rattle.composables.specs.Joined.{AllFilled, frames_in};
ghost use Rattle.composables.specs.Sizes.{look_of};
ghost use Rattle.composables.specs.TrackFacts.{NumbersBelow};
ghost use Rattle.edit_splice.specs.Counting.{back_number, begun, belongs, count_by, count_past, number_of, numbers};
ghost use Rattle.edit_splice.specs.Parts.{AreSeams};
ghost use Rattle.edit_splice.specs.Splicing.{spliced_track};

use crate::parts::{renumbered, split_between};
use crate::seams::{ItemAt, Seams, seams_of};
use composables::{ItemView, Track, a_track_is_kept, number_past_all};
use frame_meaning::same_item;
use std::sync::ledger::Ledger;
use step_count::Steps;

/// How many items and gaps a track has after a splice, whether that keeps dissolves or not. It looks at the items and
/// gaps at the ends of the range and at those that are put in, and at no others.
pub fn count_after<L: Ledger>(
    track: &Track,
    x: u32,
    y: u32,
    items: &[ItemView],
    steps: &mut Steps<L>,
) -> u32
    requires order { x ≤ y }
    requires within { y ≤ length track.now.cells }
    requires filled { AllFilled items.now }
    requires numbers { NumbersBelow 4294967295 items.now }
    requires short { x + frames_in items.now + (length track.now.cells - y) < 2 ^ 32 }

    ensures count { (keep : Bool) → result
        ≡ length (items_of (spliced_track keep track.now x y items.now).cells) }

    ensures least { steps.old ≤ steps.new }
    ensures most { steps.new ≤ steps.old + 2 * look_of track.now + length items.now }
{
    let seams = seams_of(track, x, y, steps);
    count_at(track, &seams, x, y, items, steps)
}

/// The count of `count_after`, where it is known what stands at the ends of the range.
pub(crate) fn count_at<L: Ledger>(
    track: &Track,
    seams: &Seams,
    x: u32,
    y: u32,
    items: &[ItemView],
    steps: &mut Steps<L>,
) -> u32
    requires seams { AreSeams track.now.cells x y seams.now }
    requires order { x ≤ y }
    requires within { y ≤ length track.now.cells }
    requires filled { AllFilled items.now }
    requires numbers { NumbersBelow 4294967295 items.now }
    requires short { x + frames_in items.now + (length track.now.cells - y) < 2 ^ 32 }
    ensures count { (keep : Bool) → result
        ≡ length (items_of (spliced_track keep track.now x y items.now).cells) }
    ensures steps { steps.new ≡ steps.old + length items.now }
{
    a_track_is_kept(track);
    let fresh = number_past_all(track.next_item(), items);
    let split = split_between(seams.left, seams.right);
    let between = begun(
        number_of(seams.left),
        items,
        back_number(seams.right, split, fresh),
        steps,
    );
    let past = count_past(seams.right, track.count());
    total(count_by(seams.left), between, past)
}

// The items and gaps of the whole track: those before the range, those that begin in it, and those past it.
fn total(before: u32, between: usize, past: u32) -> u32
    requires { before + between + past < 2 ^ 32 }
    ensures { result ≡ before + between + past }
{
    (before as usize + between + past as usize) as u32
}

// The item number of what stands at an end of the range, if something does; a gap has no number.
fn number_of(held: Option<ItemAt>) -> Option<Option<u32>>
    ensures { result ≡ number_of held }
{
    match held {
        Some(held) => Some(held.view.item),
        None => None,
    }
}

// How many items and gaps there are up to this one.
fn count_by(held: Option<ItemAt>) -> u32
    requires { count_by held < 2 ^ 32 }
    ensures { result ≡ count_by held }
{
    match held {
        Some(held) => held.index + 1,
        None => 0,
    }
}

// How many of `count` items and gaps there are after this one.
fn count_past(held: Option<ItemAt>, count: u32) -> u32
    requires { count_by held ≤ count }
    ensures { result ≡ count_past held count }
{
    match held {
        Some(held) => count - (held.index + 1),
        None => 0,
    }
}

// The number of the part after the range, if there is one.
fn back_number(held: Option<ItemAt>, split: Option<u32>, fresh: u32) -> Option<Option<u32>>
    ensures { result ≡ back_number held split fresh }
{
    match held {
        Some(held) => Some(renumbered(&held.view, split, fresh).item),
        None => None,
    }
}

// How many of these, and of the one after them, do not belong to the one before.
fn begun<L: Ledger>(
    before: Option<Option<u32>>,
    items: &[ItemView],
    behind: Option<Option<u32>>,
    steps: &mut Steps<L>,
) -> usize
    ensures begun { result ≡ begun before (numbers items.now ++ option_to_list behind) }
    ensures steps { steps.new ≡ steps.old + length items.now }
{
    let mut last = before;
    let mut count = 0;
    for view in items {
        steps.tick();
        if !belongs(last, view.item) {
            count += 1;
        }
        last = Some(view.item);
    }
    match behind {
        Some(number) if !belongs(last, number) => count + 1,
        _ => count,
    }
}

// Whether what has this number belongs to the item or gap before it: what meets with one number, or dark, is one.
fn belongs(before: Option<Option<u32>>, number: Option<u32>) -> bool
    ensures { result ≡ belongs before number }
{
    match before {
        Some(before) => same_item(before, number),
        None => false,
    }
}
