// The events of a cut.
ghost use Rattle.std.specs.Prelude.{◌≡◌, ◌<◌, ◌^◌, None, [], length, IfErr, IfOk, OnOk, slice_index_or};
ghost use Rattle.flatten.specs.Channels.{AreSound};
ghost use Rattle.flatten.specs.Segments.{AreSegments, CanBeCut, first_partial};
ghost use Rattle.flatten.specs.Strips.{frames_of};
ghost use Rattle.edl_write.specs.Limits.{AreLimited, AreShort};
ghost use Rattle.edl_write.specs.Merging.{IsPartialFault};
ghost use Rattle.edl_write.specs.Order.{AreEventsOf};
ghost use Rattle.edl_write.specs.Refusals.{IsRefusedForChannels};

use crate::fault::ListFault;
use crate::ordering::{ChannelSegment, ordered};
use composables::{Listed, Table, Track};
use flatten::{Segment, SegmentFault, flatten, segments};
use frame_meaning::Run;
use std::alloc::Global;

/// The events of a cut, in order, or `Channels` or `PartialDissolve` where its channels have no list.
pub fn cut_events(
    alloc: Global,
    table: &Table,
    tracks: &[Track],
) -> Result<Vec<ChannelSegment>, ListFault>
    requires layers { AreSound table.now.nests }
    requires tracks { AreLimited tracks.now }
    requires few { length tracks.now < 2 ^ 32 }
    ensures events { IfOk result (λ es. AreEventsOf table.now tracks.now es.items) }
    ensures refused { IfErr result (IsRefusedForChannels table.now tracks.now) }
{
    let shown = flatten(alloc, table, tracks)?;
    let audio = shown.audio.as_slice();
    if audio.len() > 2 {
        return Err(ListFault::Channels(audio.len() as u32));
    }
    let picture = cut(alloc, shown.video.as_slice())?;
    let sound = cut(alloc, channel(audio, 0))?;
    let second_sound = match cut(alloc, channel(audio, 1)) {
        Ok(all) => all,
        Err(fault) => return Err(fault),
    };
    Ok(ordered(
        alloc,
        picture.as_slice(),
        sound.as_slice(),
        second_sound.as_slice(),
    )?)
}

// The runs of a channel of sound, which are none where there is no such track.
fn channel(audio: &[Listed<Run<u32>>], n: usize) -> &[Run<u32>]
    ensures { result.now ≡ slice_index_or audio.now n [] }
{
    match audio.get(n) {
        Some(runs) => runs.as_slice(),
        None => &[],
    }
}

// A channel as segments, or `PartialDissolve`.
fn cut(alloc: Global, runs: &[Run<u32>]) -> Result<Vec<Segment>, ListFault>
    requires { CanBeCut runs.now }
    ensures segments { IfOk result (λ all. AreSegments all.items (frames_of runs.now)) }
    ensures whole { OnOk result (first_partial 0 runs.now ≡ None) }
    ensures partial { IfErr result (λ fault. IsPartialFault fault (first_partial 0 runs.now)) }
{
    match segments(alloc, runs) {
        Ok(all) => Ok(all),
        Err(SegmentFault::PartialDissolve(at)) => Err(ListFault::PartialDissolve(at)),
        Err(SegmentFault::Memory) => Err(ListFault::Memory),
    }
}
