// How a room begins.
ghost use Rattle.std.specs.Prelude.{◌≡◌, ◌≤◌, false, IfOk, map};
ghost use Rattle.timecode12.specs.declared.rate.SequenceRate.TheVariants as SequenceRate;
ghost use Rattle.std.specs.List.{range_with_len};
ghost use Rattle.std.specs.String.{string_bytes};
ghost use Rattle.otio_json.specs.Openings.{plain_media, plain_reel, plain_table, empty_track};

use composables::{Kind, Listed, Media, Memory, Reels, Table, Track};
use std::alloc::Global;
use timecode12::{Counting, SequenceRate};

/// The frames of a plain reel: an hour at 24 frames a second.
const PLAIN_FRAMES: u32 = 86_400;

/// How a room begins: the table, the tracks in order, how frames are counted, and the frame of the day at which the
/// sequence starts.
#[derive(Drop)]
pub struct Opening {
    pub table: Table,
    pub tracks: Listed<Track>,
    pub counting: Counting,
    pub start: u32,
}

impl Opening {
    ghost use Rattle.std.specs.Prelude.{◌≡◌, ◌≤◌, IfOk};
    ghost use Rattle.otio_tracks.specs.ReelTexts.{AreTexts};
    ghost use Rattle.otio_json.specs.declared.timeline.TheConstants.{MAX_TRACKS};
    ghost use Rattle.otio_json.specs.Openings.{plain_opening};
    ghost use Rattle.otio_json.specs.Soundness.{IsSoundOpening};

    /// Empty video tracks, 24 frames a second without drop-frame, start 0; media m is reel m, named `R` and m in
    /// decimal, with its first 86,400 frames.
    pub fn plain(alloc: Global, tracks: u32, reels: u32) -> Result<Opening, Memory>
        requires tracks { tracks ≤ MAX_TRACKS }
        requires reels { reels ≤ 999 }
        ensures plain { IfOk result (λ opening. opening ≡ plain_opening tracks reels) }
        ensures sound { IfOk result IsSoundOpening }
        ensures texts { IfOk result (λ opening. AreTexts opening.table.reels) }
    {
        let table = plain_table(alloc, tracks, reels)?;
        let tracks = empty_tracks(alloc, tracks)?;
        Ok(Opening {
            table,
            tracks,
            counting: plain_counting(),
            start: 0,
        })
    }
}

// 24 frames a second, without drop-frame.
fn plain_counting() -> Counting
    ensures { result ≡ record { rate = SequenceRate.F24; drop_frame = false } }
{
    match Counting::new(SequenceRate::F24, false) {
        Some(counting) => counting,
        None => unreachable!(),
    }
}

// So many video tracks.
fn plain_kinds(alloc: Global, tracks: u32) -> Result<Listed<Kind>, Memory>
    ensures { IfOk result (λ kinds. kinds ≡ (plain_table tracks 0).kinds) }
{
    let mut kinds = Listed::new(alloc);
    for track in 0..tracks {
        let _ = track;
        kinds.push(Kind::Video)?;
    }
    Ok(kinds)
}

// A media entry for each reel, with its first 86,400 frames.
fn plain_media_list(alloc: Global, reels: u32) -> Result<Listed<Media>, Memory>
    ensures { IfOk result (λ media. media ≡ map plain_media (range_with_len 0 reels)) }
{
    let mut media = Listed::new(alloc);
    for reel in 0..reels {
        media.push(Media {
            reel,
            from: 0,
            to: PLAIN_FRAMES,
        })?;
    }
    Ok(media)
}

// The name of a plain reel: `R`, and its number in decimal.
fn reel_name(alloc: Global, reel: u32) -> Result<String, Memory>
    ensures { IfOk result (λ name. string_bytes name ≡ plain_reel reel) }
{
    Ok(format!(in alloc; "R{reel}")?)
}

// So many plain reels, numbered from 0.
fn plain_reels(alloc: Global, count: u32) -> Result<Reels, Memory>
    requires { count ≤ 999 }
    ensures { IfOk result (λ reels. reels ≡ map plain_reel (range_with_len 0 count)) }
{
    let mut reels = Reels::new(alloc);
    for reel in 0..count {
        let name = reel_name(alloc, reel)?;
        reels.add(name.as_str())?;
    }
    Ok(reels)
}

/// The table of a plain room: video tracks, and reels of which each has one media entry with its first 86,400 frames.
fn plain_table(alloc: Global, tracks: u32, reels: u32) -> Result<Table, Memory>
    requires { reels ≤ 999 }
    ensures { IfOk result (λ table. table ≡ plain_table tracks reels) }
{
    Ok(Table {
        kinds: plain_kinds(alloc, tracks)?,
        reels: plain_reels(alloc, reels)?,
        media: plain_media_list(alloc, reels)?,
        nests: Listed::new(alloc),
    })
}

/// Empty tracks, numbered from 0.
fn empty_tracks(alloc: Global, count: u32) -> Result<Listed<Track>, Memory>
    ensures { IfOk result (λ tracks. tracks ≡ map empty_track (range_with_len 0 count)) }
{
    let mut tracks = Listed::new(alloc);
    for number in 0..count {
        tracks.push(Track::empty(alloc, number))?;
    }
    Ok(tracks)
}
