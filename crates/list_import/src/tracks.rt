// The tracks of the three channels: the shots of each in order of their record ins, and dark frames between them.
ghost use Rattle.std.specs.Prelude.{◌≡◌, ◌<◌, IfOk};
ghost use Rattle.std.specs.List.{filter};
ghost use Rattle.edl_events.specs.Channels.{is_on};
ghost use Rattle.list_import.specs.TrackItems.{track_views, track_with, AreShotsOn, AreTracksOf, IsTrackOn};
ghost use Rattle.list_import.specs.ShotFacts.{CanBeLaid, CanBeOrdered};

use crate::laying::{number_behind, push_gap, push_shot};
use crate::{Memory, Shot};
use composables::{ItemView, Listed, Track};
use edl_events::Channel;
use std::alloc::Global;
use std::marker::Brand;
use std::sync::ledger::{Blank, Ledger};
use step_count::Steps;

// The shots of a channel, in the order of the list.
fn shots_on(alloc: Global, channel: Channel, shots: &[Shot]) -> Result<Vec<Shot>, Memory>
    ensures { IfOk result (λ on. on.items
        ≡ filter (λ shot. is_on channel shot.channels) shots.now) }
{
    let mut on = Vec::new(alloc);
    for shot in shots {
        if channel.is_in(shot.channels) {
            on.push(*shot)?;
        }
    }
    Ok(on)
}

// The shots of a channel in order of their record ins.
fn ordered_on(
    alloc: Global,
    channel: Channel,
    start: u32,
    shots: &[Shot],
) -> Result<Vec<Shot>, Memory>
    requires { CanBeOrdered start shots.now }
    ensures own { IfOk result (λ on. AreShotsOn channel shots.now on.items) }
    ensures laid { IfOk result (λ on. CanBeLaid start on.items) }
{
    let mut on = shots_on(alloc, channel, shots)?;
    on.sort_by_key(|shot| shot.place)?;
    Ok(on)
}

// The items and gaps of shots that follow one another, from a record frame on. Items are numbered by their place.
fn views_of(alloc: Global, start: u32, shots: &[Shot]) -> Result<Vec<ItemView>, Memory>
    requires { CanBeLaid start shots.now }
    ensures { IfOk result (λ views. views.items ≡ track_views start 0 shots.now) }
{
    let mut views = Vec::new(alloc);
    let mut at = start;
    let mut number = 0;
    for shot in shots {
        push_gap(&mut views, shot.place - at)?;
        push_shot(&mut views, number, shot)?;
        number = number_behind(number, shot);
        at = shot.place + shot.len;
    }
    Ok(views)
}

// The track of shots that follow one another, made with a counter of its own.
fn track_counted<L: Ledger>(
    blank: Blank,
    alloc: Global,
    number: u32,
    start: u32,
    shots: &[Shot],
) -> Result<Track, Memory>
    requires blank { (blank.name ≡ L.name) × (blank.parts ≡ L.parts) × (0 < blank.parts) }
    requires laid { CanBeLaid start shots.now }
    ensures { IfOk result (λ track. track ≡ track_with number (track_views start 0 shots.now)) }
{
    let views = views_of(alloc, start, shots)?;
    let mut track = Track::empty(alloc, number);
    let mut steps = Steps::<L>::new(blank);
    track.replace(0, 0, views, &mut steps)?;
    Ok(track)
}

// The track of shots that follow one another.
fn track_of(alloc: Global, number: u32, start: u32, shots: &[Shot]) -> Result<Track, Memory>
    requires { CanBeLaid start shots.now }
    ensures { IfOk result (λ track. track ≡ track_with number (track_views start 0 shots.now)) }
{
    track_counted::<Brand>(Blank::new(1), alloc, number, start, shots)
}

// The track with the shots of a channel.
fn track_on(
    alloc: Global,
    channel: Channel,
    number: u32,
    start: u32,
    shots: &[Shot],
) -> Result<Track, Memory>
    requires { CanBeOrdered start shots.now }
    ensures { IfOk result (λ track. IsTrackOn channel number start shots.now track) }
{
    let on = ordered_on(alloc, channel, start, shots)?;
    let track = track_of(alloc, number, start, on.as_slice())?;
    Ok(track)
}

/// The tracks of the picture and of the two channels of sound.
pub fn tracks_of(alloc: Global, start: u32, shots: &[Shot]) -> Result<Listed<Track>, Memory>
    requires { CanBeOrdered start shots.now }
    ensures { IfOk result (λ tracks. AreTracksOf start shots.now tracks) }
{
    let mut tracks = Listed::new(alloc);
    tracks.push(track_on(alloc, Channel::V, 0, start, shots)?)?;
    tracks.push(track_on(alloc, Channel::A, 1, start, shots)?)?;
    tracks.push(track_on(alloc, Channel::A2, 2, start, shots)?)?;
    Ok(tracks)
}
