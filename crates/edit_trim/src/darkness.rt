// How many dark places stand beside an item.
ghost use Rattle.std.specs.Prelude.{◌≤◌, length};
ghost use Rattle.composables.specs.Places.{IsPlaceOf};
ghost use Rattle.composables.specs.TrackFacts.{IsKept};
ghost use Rattle.edit_delta.specs.Nearest.{AreUpTo};
ghost use Rattle.edit_trim.specs.Darkness.{dark_before, dark_behind};

use composables::{MAX_FRAMES, Place, Track};

/// How many dark places end where an item begins.
pub(crate) fn dark_before(track: &Track, place: Place) -> u32
    requires kept { IsKept track.now }
    requires place { IsPlaceOf track.now.cells place }
    ensures { AreUpTo (dark_before track.now.cells place.from) result }
{
    if place.index == 0 {
        return 0;
    }
    let Some(before) = track.item(place.index - 1) else {
        unreachable!()
    };
    match before.item {
        Some(_) => 0,
        None => before.len,
    }
}

/// How many dark places begin where an item ends, where the places that a track may have beyond its end are dark.
pub(crate) fn dark_behind(track: &Track, place: Place) -> u32
    requires kept { IsKept track.now }
    requires place { IsPlaceOf track.now.cells place }
    requires frames { length track.now.cells ≤ MAX_FRAMES }
    ensures { AreUpTo (dark_behind track.now.cells place.to) result }
{
    let Some(behind) = track.item(place.index + 1) else {
        return MAX_FRAMES - place.to;
    };
    match behind.item {
        Some(_) => 0,
        None if place.index + 2 < track.count() => behind.len,
        None => MAX_FRAMES - place.to,
    }
}
