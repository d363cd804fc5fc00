// The runs of frames that a track shows.
ghost use Rattle.std.specs.Prelude.{◌≡◌, ◌-◌, ◌<◌, ◌≤◌, IfOk, IfSome, IsNone, length, take, drop};
ghost use Rattle.frame_meaning.specs.Going.{same_what};
ghost use Rattle.frame_meaning.specs.Render.{render};
ghost use Rattle.frame_meaning.specs.Runs.{runs};
ghost use Rattle.composables.specs.Items.{items_of};
ghost use Rattle.composables.specs.Places.{IsPlaceOf};
ghost use Rattle.dissolves.specs.Parts.{item_before};

use crate::parts::add_item;
use composables::{ItemReader, ItemView, Place, Track};
use frame_meaning::{Memory, Run, What};
use std::alloc::Global;
use std::marker::Brand;
use std::sync::ledger::{Blank, Ledger};
use step_count::Steps;

/// The maximal runs of the frames shown at the places [a, b), in order, where each place is a record frame. It finds
/// the item or gap at `a`, and takes a few steps from there on for each item and gap of the range, and none for a
/// frame. A track of 4,294,967,295 frames has no answer, since a dissolve over all of them would have a `den` of
/// 2^32.
pub fn runs_in(alloc: Global, track: &Track, a: u32, b: u32) -> Result<Vec<Run<What>>, Memory>
    requires order { a ≤ b }
    requires within { b ≤ length track.now.cells }
    requires short { length track.now.cells < 4294967295 }
    ensures { IfOk result (λ v. v.items ≡ runs same_what
        (take (b - a) (drop a (render track.now.cells)))) }
{
    let length = track.length();
    prove!(b <= length);
    let mut shown = Vec::new(alloc);
    let Some(place) = place_at::<Brand>(Blank::new(1), track, a) else {
        return Ok(shown);
    };
    let mut from = place.from;
    let mut before = view_before(track, place.index);
    let mut items = ItemReader::at(track, place.index);
    let mut here = items.next();
    while let Some(view) = here {
        if from >= b {
            return Ok(shown);
        }
        let after = items.next();
        add_item(&mut shown, before, view, after, from, a, b)?;
        from += view.len;
        before = here;
        here = after;
    }
    Ok(shown)
}

// Where the item or gap that holds a place stands.
fn place_at<L: Ledger>(blank: Blank, track: &Track, at: u32) -> Option<Place>
    requires blank { (blank.name ≡ L.name) × (blank.parts ≡ L.parts) × (0 < blank.parts) }
    ensures found { IfSome result (λ p. IsPlaceOf track.now.cells p) }
    ensures begins { IfSome result (λ p. p.from ≤ at) }
    ensures none { IsNone result → length track.now.cells ≤ at }
{
    let mut steps = Steps::<L>::new(blank);
    track.item_at(at, &mut steps)
}

/// The item or gap before the one with this index, if there is one.
pub fn view_before(track: &Track, index: u32) -> Option<ItemView>
    ensures { result ≡ item_before (items_of track.now.cells) index }
{
    if index == 0 {
        return None;
    }
    track.item(index - 1)
}
