// Sets of tracks, the own track of a call among those that it names, and copies of these.
ghost use Rattle.std.specs.Prelude.{◌≡◌, ◌<◌, IfOk, IfSome, length};
ghost use Rattle.composables.specs.OwnTracks.{found_at, track_numbered};
ghost use Rattle.composables.specs.TrackSets.{has_track};

use crate::{Memory, Track};
use std::alloc::Global;

/// Whether bit `track` of the set is set, which names that track.
pub fn has_track(tracks: u32, track: u32) -> bool
    requires { track < 32 }
    ensures { result ≡ has_track tracks track }
{
    (tracks >> track) & 1 == 1
}

/// Where the track with a number stands among these, or `None` where none has it.
pub fn own_index(named: &[Track], number: u32) -> Option<usize>
    ensures found { track_numbered number named.now ≡ found_at named.now result }
    ensures within { IfSome result (λ i. i < length named.now) }
{
    for (index, track) in named.iter().enumerate() {
        if track.number() == number {
            return Some(index);
        }
    }
    None
}

/// Equal tracks, which share all their items and gaps with these.
pub fn copies_of(alloc: Global, tracks: &[Track]) -> Result<Vec<Track>, Memory>
    ensures { IfOk result (λ all. all.items ≡ tracks.now) }
{
    let mut all = Vec::with_capacity(alloc, tracks.len())?;
    for track in tracks {
        let copy = track.copy(alloc)?;
        all.push(copy)?;
    }
    Ok(all)
}
