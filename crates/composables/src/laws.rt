// What holds of all tracks, whoever changes them.
ghost use Rattle.std.specs.Prelude.{◌≡◌, ◌<◌, ◌≤◌, ℕ, suc, List, Option};
ghost use Rattle.frame_meaning.specs.declared.cells.Cell.{Cell};
ghost use Rattle.frame_meaning.specs.declared.cells.Mark.{Mark};
ghost use Rattle.composables.specs.declared.TheConstants.{MAX_FRAMES, MAX_ITEMS};
ghost use Rattle.composables.specs.declared.items.Place.{Place};
ghost use Rattle.composables.specs.Changes.{changed_track, with_mark};
ghost use Rattle.composables.specs.Items.{items_of};
ghost use Rattle.composables.specs.Places.{IsPlaceOf};
ghost use Rattle.composables.specs.Standing.{HaveRoom};
ghost use Rattle.composables.specs.TrackFacts.{IsKept};
ghost use Rattle.composables.specs.TrackState.{TrackState};

use crate::Track;

/// Whoever changes a track, it keeps what every track keeps.
pub fn a_track_is_kept(track: &Track)
    ensures { IsKept track.now }
{
    let _ = track.length(); // its clause says so
}

/// A place lies in one item or gap at most.
pub fn a_place_lies_in_one_item()
    ensures { (cells : List Cell) (p q : Place) (at : ℕ) → IsPlaceOf cells p → IsPlaceOf cells q
        → p.from ≤ at → at < p.to → q.from ≤ at → at < q.to → p ≡ q }
{}

/// A dissolve for which both sides of a cut have room may be put there, or taken away.
pub fn a_dissolve_may_stand_at_a_cut()
    ensures { (t : TrackState) (left : ℕ) (mark : Option Mark) → IsKept t
        → HaveRoom (items_of t.cells) left mark
        → IsKept (changed_track t (suc left) (with_mark mark)) }
{}

/// The limits of a track: 2,592,000 frames, which are a day at 30 a second, and 65,536 items and gaps.
pub fn limits_are_these()
    ensures frames { MAX_FRAMES ≡ 2592000 }
    ensures items { MAX_ITEMS ≡ 65536 }
{}
