// Nests looked through, and media replaced by their reels.
ghost use Rattle.std.specs.Prelude.{◌≡◌, ◌<◌, ◌≤◌, ◌++◌, [], IfOk, OnOk, drop, length, map, slice_get, slice_index_or};
ghost use Rattle.std.specs.List.{flat_map};
ghost use Rattle.frame_meaning.specs.RunFrames.{run_frames};
ghost use Rattle.frame_meaning.specs.Render.{render};
ghost use Rattle.dissolves.specs.Pieces.{cut};
ghost use Rattle.flatten.specs.Channels.{AreSound, EachLiesInTrack};
ghost use Rattle.flatten.specs.Nests.{frames_of_nests, layer_frames, nest_frames, nest_in, reel_frame, reel_of, reel_side, resolved};
ghost use Rattle.flatten.specs.Strips.{AllFit, AreFit, AreTrackRuns, IsTrackRun, Show, ShowEach, frames_of, padded};

use crate::finding::Strip;
use crate::stacks::stack;
use crate::strips::{FIRST, add_padded};
use composables::{Layer, Listed, Media, Nest, Table, Track};
use dissolves::runs_in;
use frame_meaning::{Frame, Memory, Run, Side, What};
use std::alloc::Global;

/// What each nest of a table shows, in order. Only nests with lower numbers stand in a nest.
pub fn nest_strips(alloc: Global, table: &Table) -> Result<Listed<Strip>, Memory>
    requires { AreSound table.now.nests }
    ensures { IfOk result (λ all. ShowEach all (frames_of_nests table.now)) }
{
    let mut all = Listed::new(alloc);
    for nest in table.nests.as_slice() {
        let strip = nest_strip(alloc, table.media.as_slice(), all.as_slice(), nest)?;
        all.push(strip)?;
    }
    Ok(all)
}

// What a nest shows, where those before it show these: its layers stacked, for as many frames as it has.
fn nest_strip(alloc: Global, media: &[Media], nests: &[Strip], nest: &Nest) -> Result<Strip, Memory>
    requires fit { AllFit nests.now }
    requires layers { EachLiesInTrack nest.now.layers }
    ensures { IfOk result (λ all. Show all
        (nest_frames media.now (map frames_of nests.now) nest.now)) }
{
    let layers = layer_strips(alloc, media, nests, nest.layers.as_slice())?;
    let stacked = stack(alloc, layers.as_slice())?;
    padded_strip(alloc, stacked.as_slice(), nest.length)
}

/// The first frames of these runs, with dark frames after them where there are fewer.
pub fn padded_strip(alloc: Global, runs: &[Run<u32>], length: u32) -> Result<Strip, Memory>
    requires { AreFit runs.now }
    ensures { IfOk result (λ strip. Show strip (padded length (frames_of runs.now))) }
{
    let mut all = Listed::new(alloc);
    add_padded(&mut all, runs, FIRST, length)?;
    let strip = Strip::new(alloc, all)?;
    Ok(strip)
}

// What each of these layers shows of its track, in order.
fn layer_strips(
    alloc: Global,
    media: &[Media],
    nests: &[Strip],
    layers: &[Layer],
) -> Result<Listed<Listed<Run<u32>>>, Memory>
    requires fit { AllFit nests.now }
    requires layers { EachLiesInTrack layers.now }
    ensures { IfOk result (λ all. ShowEach all
        (map (layer_frames media.now (map frames_of nests.now)) layers.now)) }
{
    let mut all = Listed::new(alloc);
    for layer in layers {
        let strip = strip_of(alloc, media, nests, &layer.track, layer.from, layer.to)?;
        all.push(strip)?;
    }
    Ok(all)
}

/// What the places [from, to) of a track show, where the nests show these.
pub fn strip_of(
    alloc: Global,
    media: &[Media],
    nests: &[Strip],
    track: &Track,
    from: u32,
    to: u32,
) -> Result<Listed<Run<u32>>, Memory>
    requires fit { AllFit nests.now }
    requires order { from ≤ to }
    requires within { to ≤ length track.now.cells }
    requires short { length track.now.cells < 4294967295 }
    ensures { IfOk result (λ all. Show all (map (resolved media.now (map frames_of nests.now))
        (cut from to (render track.now.cells)))) }
{
    prove!(to <= track.length());
    let shown = runs_in(alloc, track, from, to)?;
    resolve_runs(alloc, media, nests, &shown)
}

// Runs of a track with media replaced by their reels, and nests by what they show.
fn resolve_runs(
    alloc: Global,
    media: &[Media],
    nests: &[Strip],
    runs: &[Run<What>],
) -> Result<Listed<Run<u32>>, Memory>
    requires fit { AllFit nests.now }
    requires runs { AreTrackRuns runs.now }
    ensures { IfOk result (λ all. Show all (map (resolved media.now (map frames_of nests.now))
        (flat_map run_frames runs.now))) }
{
    let mut all = Listed::new(alloc);
    for run in runs {
        add_resolved(&mut all, media, nests, *run)?;
    }
    Ok(all)
}

// Adds such a run: what a nest shows of it, or the same frames of a reel.
fn add_resolved(
    all: &mut Listed<Run<u32>>,
    media: &[Media],
    nests: &[Strip],
    run: Run<What>,
) -> Result<(), Memory>
    requires all { AreFit all.old }
    requires fit { AllFit nests.now }
    requires run { IsTrackRun run }
    ensures added { OnOk result (frames_of all.new ≡ frames_of all.old
        ++ map (resolved media.now (map frames_of nests.now)) (run_frames run)) }
    ensures all { OnOk result (AreFit all.new) }
{
    match nest_in(run.frame) {
        Some((nest, source)) => {
            add_nest(all, nests, nest, source, run.len)?;
            Ok(())
        }
        None => {
            let frame = reel_frame(media, run.frame);
            all.push(Run {
                frame,
                len: run.len,
            })?;
            Ok(())
        }
    }
}

// Adds so many frames of a nest from one on, and dark frames past its end or where there is no such nest.
fn add_nest(
    all: &mut Listed<Run<u32>>,
    nests: &[Strip],
    nest: u32,
    source: u32,
    len: u32,
) -> Result<(), Memory>
    requires all { AreFit all.old }
    requires fit { AllFit nests.now }
    ensures added { OnOk result (frames_of all.new ≡ frames_of all.old
        ++ padded len (drop source (slice_index_or (map frames_of nests.now) nest []))) }
    ensures all { OnOk result (AreFit all.new) }
{
    match nests.get(nest as usize) {
        Some(strip) => add_from(all, strip, source, len),
        None => add_dark(all, len),
    }
}

// Adds so many frames of a strip from one on, and dark frames past its end.
fn add_from(all: &mut Listed<Run<u32>>, strip: &Strip, source: u32, len: u32) -> Result<(), Memory>
    requires all { AreFit all.old }
    requires fit { AreFit strip.now }
    ensures added { OnOk result (frames_of all.new ≡ frames_of all.old
        ++ padded len (drop source (frames_of strip.now))) }
    ensures all { OnOk result (AreFit all.new) }
{
    let spot = strip.spot_at(source);
    add_padded(all, strip.as_slice(), spot, len)?;
    Ok(())
}

// Adds so many dark frames.
fn add_dark(all: &mut Listed<Run<u32>>, len: u32) -> Result<(), Memory>
    requires { AreFit all.old }
    ensures added { OnOk result (frames_of all.new ≡ frames_of all.old ++ padded len []) }
    ensures all { OnOk result (AreFit all.new) }
{
    add_padded(all, &[], FIRST, len)?;
    Ok(())
}

// The nest that a frame is of, and its frame there, if the frame is of one.
fn nest_in(frame: Frame<What>) -> Option<(u32, u32)>
    ensures { result ≡ nest_in frame }
{
    match frame {
        Frame::Pic {
            what: What::Nest(j),
            source,
        } => Some((j, source)),
        _ => None,
    }
}

// A frame that is of no nest, with its media replaced by their reels.
fn reel_frame(media: &[Media], frame: Frame<What>) -> Frame<u32>
    ensures { result ≡ reel_frame media.now frame }
{
    match frame {
        Frame::Dark => Frame::Dark,
        Frame::Pic { what, source } => match reel_side(media, Side::Pic { what, source }) {
            Side::Dark => Frame::Dark,
            Side::Pic { what, source } => Frame::Pic { what, source },
        },
        Frame::Mix {
            left,
            right,
            num,
            den,
        } => Frame::Mix {
            left: reel_side(media, left),
            right: reel_side(media, right),
            num,
            den,
        },
    }
}

// A side with its media replaced by their reels. No side of a mix is a nest.
fn reel_side(media: &[Media], side: Side<What>) -> Side<u32>
    ensures { result ≡ reel_side media.now side }
{
    match side {
        Side::Pic {
            what: What::Media(m),
            source,
        } => reel_of(media, m, source),
        _ => Side::Dark,
    }
}

// A source frame of the reel that a media entry is of, and dark for a number that no entry has.
fn reel_of(media: &[Media], m: u32, source: u32) -> Side<u32>
    ensures { result ≡ reel_of (slice_get media.now m) source }
{
    match media.get(m as usize) {
        Some(entry) => Side::Pic {
            what: entry.reel,
            source,
        },
        None => Side::Dark,
    }
}
