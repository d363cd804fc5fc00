// The tracks that a call names, and whether they are in the room.
ghost use Rattle.std.specs.Prelude.{◌≡◌, ◌<◌, ◌≤◌, ◌&&◌, not, nat_eq, nat_lt};
ghost use Rattle.std.specs.List.{list_any};
ghost use Rattle.composables.specs.TrackSets.{has_track, tracks_in};
ghost use Rattle.room_core.specs.Whole.{set_of};
ghost use Rattle.edit_apply.specs.Apply.{first_absent, lowest, named_by, track_count, tracks_of, wrong_track_in};

use crate::Call;
use composables::{Table, has_track};

/// The tracks that a call names: one, or the set `tracks`, in which bit t stands for track t, and the call's own track.
#[derive(Clone, Copy, Debug, PartialEq, Eq)]
pub(crate) enum NamedTracks {
    One(u32),
    Many { tracks: u32, own: u32 },
}

/// The tracks that a call is for.
pub(crate) fn named_by(call: &Call) -> NamedTracks
    ensures { result ≡ named_by call.now }
{
    match call {
        Call::Overwrite(edit) => NamedTracks::One(edit.track),
        Call::Insert(edit) => NamedTracks::Many {
            tracks: edit.tracks,
            own: edit.track,
        },
        Call::Remove(edit) => NamedTracks::One(edit.track),
        Call::Extract(edit) => NamedTracks::Many {
            tracks: edit.tracks,
            own: edit.track,
        },
        Call::Slice(edit) => NamedTracks::One(edit.track),
        Call::Dissolve(edit) => NamedTracks::One(edit.track),
        Call::Undissolve(edit) => NamedTracks::One(edit.track),
        Call::Trim(edit) => NamedTracks::One(edit.track),
        Call::Slip(edit) => NamedTracks::Many {
            tracks: edit.tracks,
            own: edit.track,
        },
        Call::Roll(edit) => NamedTracks::One(edit.track),
        Call::Slide(edit) => NamedTracks::Many {
            tracks: edit.tracks,
            own: edit.track,
        },
        Call::Fill(edit) => NamedTracks::One(edit.track),
        Call::Ripple(edit) => NamedTracks::Many {
            tracks: edit.tracks,
            own: edit.track,
        },
        Call::Link3(edit) => NamedTracks::Many {
            tracks: edit.tracks,
            own: lowest(edit.tracks),
        },
        Call::Unlink(edit) => NamedTracks::One(edit.track),
    }
}

// The lowest track of a set, and 0 where it has none: the home of a new link.
fn lowest(tracks: u32) -> u32
    ensures { result ≡ lowest (tracks_in tracks) }
{
    for track in 0..32 {
        if has_track(tracks, track) {
            return track;
        }
    }
    0
}

/// These tracks as a set: bit t for track t. A track over 31 is in no set.
pub(crate) fn set_named(named: NamedTracks) -> u32
    ensures { result ≡ set_of (tracks_of named) }
{
    match named {
        NamedTracks::One(track) => if track < 32 { 1 << track } else { 0 },
        NamedTracks::Many { tracks, own: _ } => tracks,
    }
}

/// How many tracks a room with this table has.
pub(crate) fn track_count(table: &Table) -> u32
    ensures count { result ≡ track_count table.now }
    ensures most { result ≤ 32 }
{
    table.kinds.as_slice().len().min(32) as u32
}

/// The track for which a call is refused in a room of so many tracks, if there is one.
pub(crate) fn wrong_track(count: u32, named: NamedTracks) -> Option<u32>
    ensures { result ≡ wrong_track_in count named }
{
    match named {
        NamedTracks::One(track) => if track < count { None } else { Some(track) },
        NamedTracks::Many { tracks, own } => match first_absent(count, tracks) {
            Some(track) => Some(track),
            None => if is_among(tracks, own) {
                None
            } else {
                Some(own)
            },
        },
    }
}

// The first track of a set that is not below the count.
fn first_absent(count: u32, tracks: u32) -> Option<u32>
    ensures { result ≡ first_absent count (tracks_in tracks) }
{
    for track in 0..32 {
        if is_absent(count, tracks, track) {
            return Some(track);
        }
    }
    None
}

// Whether a track is in the set and not in a room of so many tracks.
fn is_absent(count: u32, tracks: u32, track: u32) -> bool
    requires { track < 32 }
    ensures { result ≡ (has_track tracks track && not (nat_lt track count)) }
{
    has_track(tracks, track) && track >= count
}

// Whether a track is in the set; a number over 31 is in none.
fn is_among(tracks: u32, track: u32) -> bool
    ensures { result ≡ list_any (nat_eq track) (tracks_in tracks) }
{
    track < 32 && has_track(tracks, track)
}
