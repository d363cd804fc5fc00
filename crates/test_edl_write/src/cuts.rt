// Cuts from rows, and their lists.
ghost use Rattle.std.specs.Prelude.{IsTrue};
ghost use Rattle.edl_write.specs.Limits.{AreLimited};
ghost use Rattle.flatten.specs.Channels.{AreSound, EachLiesInTrack};

use composables::{
    ItemView, Kind, Layer, Listed, MAX_FRAMES, Media, Memory, Nest, Reels, Table, Track,
};
use edl_write::{ListFault, Written, write_list};
use frame_meaning::What;
use reel_names::ReelNamer;
use std::alloc::Global;
use test_tracks::laid_track;
use timecode12::{Counting, SequenceRate};

/// A track: its kind, and its items and gaps.
pub type Row<'a> = (Kind, &'a [ItemView]);

/// An item that shows `len` frames of a nest from its frame `source` on.
pub fn nest(number: u32, nest: u32, source: u32, len: u32) -> ItemView {
    ItemView::clip(number, What::Nest(nest), source, len)
}

/// 24 frames a second, and drop-frame counting.
pub fn plain() -> Option<Counting> {
    Counting::new(SequenceRate::F24, false)
}

/// 30000/1001 frames a second, with drop-frame counting.
pub fn dropping() -> Option<Counting> {
    Counting::new(SequenceRate::F2997, true)
}

/// The list of these tracks, where media m is of the reel with the m-th of these names. A cut that can't be laid is
/// answered as if there were no memory.
pub fn list_of(
    alloc: Global,
    reels: &[&str],
    rows: &[Row<'_>],
    counting: Option<Counting>,
    start: u32,
    namer: Box<dyn ReelNamer>,
) -> Result<Written, ListFault> {
    let table = table_of(alloc, reels, rows)?;
    let tracks = tracks_of(alloc, &table, rows)?;
    listed(alloc, &table, &tracks, counting, start, namer)
}

/// The list at 24 frames a second from 0 on of a cut in which nest n has the n-th of these tracks as its layer.
pub fn nested_list(
    alloc: Global,
    reels: &[&str],
    nests: &[&[ItemView]],
    rows: &[Row<'_>],
    namer: Box<dyn ReelNamer>,
) -> Result<Written, ListFault> {
    let mut table = table_of(alloc, reels, rows)?;
    for views in nests {
        add_nest(alloc, &mut table, views)?;
    }
    let tracks = tracks_of(alloc, &table, rows)?;
    listed(alloc, &table, &tracks, plain(), 0, namer)
}

/// The list of these tracks by a table that has none of the media which they show.
pub fn black_list(
    alloc: Global,
    rows: &[Row<'_>],
    namer: Box<dyn ReelNamer>,
) -> Result<Written, ListFault> {
    let full = table_of(alloc, &["R0", "R1"], rows)?;
    let tracks = tracks_of(alloc, &full, rows)?;
    let table = table_of(alloc, &[], rows)?;
    listed(alloc, &table, &tracks, plain(), 0, namer)
}

// The list of these tracks by a table, where they can be laid.
fn listed(
    alloc: Global,
    table: &Table,
    tracks: &[Track],
    counting: Option<Counting>,
    start: u32,
    namer: Box<dyn ReelNamer>,
) -> Result<Written, ListFault> {
    let Some(counting) = counting else {
        return Err(ListFault::Memory);
    };
    if start >= counting.day() || tracks.len() > 32 || !are_limited(tracks) {
        return Err(ListFault::Memory);
    }
    if !are_sound(table.nests.as_slice()) {
        return Err(ListFault::Memory);
    }
    write_list(alloc, table, tracks, &counting, start, namer)
}

// Adds a nest of one layer, the whole of a track.
fn add_nest(alloc: Global, table: &mut Table, views: &[ItemView]) -> Result<(), Memory> {
    let mut layers = Listed::new(alloc);
    let mut length = 0;
    match laid_track(alloc, table, 0, views)? {
        Some(track) => {
            length = track.length();
            layers.push(Layer {
                track,
                from: 0,
                to: length,
            })?;
        }
        None => {}
    }
    table.nests.push(Nest { layers, length })
}

// The table of these reels, with a media entry for each, and of the kinds of these tracks.
fn table_of(alloc: Global, reels: &[&str], rows: &[Row<'_>]) -> Result<Table, Memory> {
    let names = reels_of(alloc, reels)?;
    let kinds = kinds_of(alloc, rows)?;
    let media = media_of(alloc, names.count())?;
    Ok(Table {
        kinds,
        reels: names,
        media,
        nests: Listed::new(alloc),
    })
}

// Reels of these names, up to 100,000 of them.
fn reels_of(alloc: Global, names: &[&str]) -> Result<Reels, Memory> {
    let mut reels = Reels::new(alloc);
    for name in names {
        if reels.count() < 100_000 {
            reels.add(name)?;
        }
    }
    Ok(reels)
}

// The kinds of these tracks, in order.
fn kinds_of(alloc: Global, rows: &[Row<'_>]) -> Result<Listed<Kind>, Memory> {
    let mut kinds = Listed::new(alloc);
    for (kind, _) in rows {
        kinds.push(*kind)?;
    }
    Ok(kinds)
}

// A media entry of 4,000,000 frames for each of so many reels.
fn media_of(alloc: Global, count: u32) -> Result<Listed<Media>, Memory> {
    let mut media = Listed::new(alloc);
    for m in 0..count {
        media.push(Media {
            reel: m,
            from: 0,
            to: 4_000_000,
        })?;
    }
    Ok(media)
}

// The tracks of these rows, without those that can't be laid.
fn tracks_of(alloc: Global, table: &Table, rows: &[Row<'_>]) -> Result<Vec<Track>, Memory> {
    let mut tracks = Vec::new(alloc);
    for (_, views) in rows {
        match laid_track(alloc, table, 0, views)? {
            Some(track) => tracks.push(track)?,
            None => {}
        }
    }
    Ok(tracks)
}

// Whether each track has the most frames of a room's track, or fewer.
fn are_limited(tracks: &[Track]) -> bool
    ensures { IsTrue result → AreLimited tracks.now }
{
    for track in tracks {
        if track.length() > MAX_FRAMES {
            return false;
        }
    }
    true
}

// Whether each layer of these nests lies in its track.
fn are_sound(nests: &[Nest]) -> bool
    ensures { IsTrue result → AreSound nests.now }
{
    for nest in nests {
        if !lie_in_tracks(nest.layers.as_slice()) {
            return false;
        }
    }
    true
}

// Whether each of these layers lies in its track, which is short enough to be shown.
fn lie_in_tracks(layers: &[Layer]) -> bool
    ensures { IsTrue result → EachLiesInTrack layers.now }
{
    for layer in layers {
        let length = layer.track.length();
        if layer.from > layer.to || layer.to > length || length == 4_294_967_295 {
            return false;
        }
    }
    true
}
