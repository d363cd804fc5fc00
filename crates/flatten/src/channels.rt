// What a cut shows, channel by channel.
ghost use Rattle.std.specs.Prelude.{◌≡◌, ◌<◌, ◌^◌, IfOk, IsTrue, length, map, slice_get};
ghost use Rattle.flatten.specs.Channels.{AreSound, EachIsShort, audio_frames, channels, is_of_kind, maximal_runs, video_frames};
ghost use Rattle.flatten.specs.Nests.{frames_of_nests};
ghost use Rattle.flatten.specs.Segments.{CanBeCut, EachCanBeCut};
ghost use Rattle.flatten.specs.Strips.{AllFit, AreBelow, ShowEach, frames_of};

use crate::finding::Strip;
use crate::joins::join_runs;
use crate::nests::{nest_strips, strip_of};
use crate::stacks::stack;
use composables::{Kind, Listed, Table, Track};
use frame_meaning::{Memory, Run};
use std::alloc::Global;

/// What a cut shows, as maximal runs of frames of reels, each reel by its number in the table: the video tracks as one
/// channel, in which a track lies over those before it, and a channel for each audio track, in order.
#[derive(Drop)]
pub struct Shown {
    pub video: Listed<Run<u32>>,
    pub audio: Listed<Listed<Run<u32>>>,
}

/// What these tracks show, where they are of the table's kinds in order. A nest shows what its layers show, and is dark
/// past its length. Each layer of a nest lies in its track. It composes runs: it takes a few steps for each run of a
/// layer or a track that lies on others, finds the first run of a nest's part by halving, and goes over no frame.
pub fn flatten(alloc: Global, table: &Table, tracks: &[Track]) -> Result<Shown, Memory>
    requires layers { AreSound table.now.nests }
    requires tracks { EachIsShort tracks.now }
    ensures video { IfOk result (λ s. s.video ≡ maximal_runs (video_frames table.now tracks.now)) }
    ensures audio { IfOk result (λ s. s.audio ≡ map maximal_runs
        (audio_frames table.now tracks.now)) }
    ensures video_cut { IfOk result (λ s. CanBeCut s.video) }
    ensures audio_cut { IfOk result (λ s. EachCanBeCut s.audio) }
{
    let nests = nest_strips(alloc, table)?;
    let video = video_runs(alloc, table, nests.as_slice(), tracks)?;
    let audio = audio_runs(alloc, table, nests.as_slice(), tracks)?;
    Ok(Shown { video, audio })
}

// The video tracks stacked into one channel, as its maximal runs.
fn video_runs(
    alloc: Global,
    table: &Table,
    nests: &[Strip],
    tracks: &[Track],
) -> Result<Listed<Run<u32>>, Memory>
    requires nests { ShowEach nests.now (frames_of_nests table.now) }
    requires tracks { EachIsShort tracks.now }
    ensures { IfOk result (λ all. all ≡ maximal_runs (video_frames table.now tracks.now)) }
{
    let strips = kind_strips(alloc, table, nests, tracks, Kind::Video)?;
    let strip = stack(alloc, strips.as_slice())?;
    join_runs(alloc, strip.as_slice())
}

// Each audio track as a channel, as its maximal runs.
fn audio_runs(
    alloc: Global,
    table: &Table,
    nests: &[Strip],
    tracks: &[Track],
) -> Result<Listed<Listed<Run<u32>>>, Memory>
    requires nests { ShowEach nests.now (frames_of_nests table.now) }
    requires tracks { EachIsShort tracks.now }
    ensures { IfOk result (λ all. all ≡ map maximal_runs (audio_frames table.now tracks.now)) }
{
    let strips = kind_strips(alloc, table, nests, tracks, Kind::Audio)?;
    join_each(alloc, strips.as_slice())
}

// The maximal runs of each of these channels.
fn join_each(alloc: Global, strips: &[Listed<Run<u32>>]) -> Result<Listed<Listed<Run<u32>>>, Memory>
    requires fit { AllFit strips.now }
    requires short { AreBelow (2 ^ 32) (map frames_of strips.now) }
    ensures { IfOk result (λ all. all ≡ map maximal_runs (map frames_of strips.now)) }
{
    let mut all = Listed::new(alloc);
    for strip in strips {
        let joined = join_runs(alloc, strip.as_slice())?;
        all.push(joined)?;
    }
    Ok(all)
}

// What each track of a kind shows, in order.
fn kind_strips(
    alloc: Global,
    table: &Table,
    nests: &[Strip],
    tracks: &[Track],
    kind: Kind,
) -> Result<Listed<Listed<Run<u32>>>, Memory>
    requires nests { ShowEach nests.now (frames_of_nests table.now) }
    requires tracks { EachIsShort tracks.now }
    ensures { IfOk result (λ all. ShowEach all (channels kind table.now tracks.now)) }
{
    let mut all = Listed::new(alloc);
    for (index, track) in tracks.iter().enumerate() {
        if is_of_kind(table, index, kind) {
            let media = table.media.as_slice();
            let strip = strip_of(alloc, media, nests, track, 0, track.length())?;
            all.push(strip)?;
        }
    }
    Ok(all)
}

/// Whether the track at an index is of a kind, by the table's list of kinds.
pub fn is_of_kind(table: &Table, index: usize, kind: Kind) -> bool
    ensures { result ≡ is_of_kind kind (slice_get table.now.kinds index) }
{
    match table.kinds.as_slice().get(index) {
        Some(k) => *k == kind,
        None => false,
    }
}
