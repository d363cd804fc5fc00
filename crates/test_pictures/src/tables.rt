// Tables whose nests are sound, and what tracks show by them.
ghost use Rattle.std.specs.Prelude.{IsTrue};
ghost use Rattle.flatten.specs.Channels.{AreSound, EachIsShort, EachLiesInTrack};

use composables::{ItemView, Kind, Layer, Listed, Media, Memory, Nest, Reels, Table, Track};
use flatten::{Shown, flatten};
use frame_meaning::What;
use std::alloc::Global;
use test_tracks::laid_track;

/// A layer: the places [from, to) of a track of these.
pub type LayerRow<'a> = (&'a [ItemView], u32, u32);

/// An item of a nest from a frame on.
pub fn nest(number: u32, nest: u32, source: u32, len: u32) -> ItemView {
    ItemView::clip(number, What::Nest(nest), source, len)
}

/// Tracks of these kinds, and no nests; media m is of reel m / 2, so that two entries are of one reel.
pub fn table_of(alloc: Global, kinds: &[Kind]) -> Result<Table, Memory> {
    let mut table = Table {
        kinds: Listed::new(alloc),
        reels: Reels::new(alloc),
        media: Listed::new(alloc),
        nests: Listed::new(alloc),
    };
    for kind in kinds {
        table.kinds.push(*kind)?;
    }
    for m in 0..6 {
        table.media.push(Media {
            reel: m / 2,
            from: 0,
            to: 100,
        })?;
    }
    Ok(table)
}

/// Adds a nest after those of a table, without the layers that can't be laid.
pub fn add_nest(
    table: &mut Table,
    alloc: Global,
    length: u32,
    rows: &[LayerRow<'_>],
) -> Result<(), Memory> {
    let mut layers = Listed::new(alloc);
    for (views, from, to) in rows {
        match laid_track(alloc, table, 0, views)? {
            Some(track) => layers.push(Layer {
                track,
                from: *from,
                to: *to,
            })?,
            None => {}
        }
    }
    table.nests.push(Nest { layers, length })
}

/// Adds a track of these, if they can be laid.
pub fn add_track(
    tracks: &mut Vec<Track>,
    alloc: Global,
    table: &Table,
    views: &[ItemView],
) -> Result<(), Memory> {
    match laid_track(alloc, table, 0, views)? {
        Some(track) => {
            tracks.push(track)?;
            Ok(())
        }
        None => Ok(()),
    }
}

/// What the tracks show, and nothing where a layer of the table does not lie in its track.
pub fn shown(alloc: Global, table: &Table, tracks: &[Track]) -> Result<Shown, Memory> {
    if !are_sound(table.nests.as_slice()) || !are_short(tracks) {
        return Ok(Shown {
            video: Listed::new(alloc),
            audio: Listed::new(alloc),
        });
    }
    flatten(alloc, table, tracks)
}

/// Whether each layer of these nests lies in its track.
pub fn are_sound(nests: &[Nest]) -> bool
    ensures { IsTrue result → AreSound nests.now }
{
    for nest in nests {
        if !lie_in_tracks(nest.layers.as_slice()) {
            return false;
        }
    }
    true
}

// Whether each of these layers lies in its track, which is short enough to be shown.
fn lie_in_tracks(layers: &[Layer]) -> bool
    ensures { IsTrue result → EachLiesInTrack layers.now }
{
    for layer in layers {
        let length = layer.track.length();
        if layer.from > layer.to || layer.to > length || length == 4_294_967_295 {
            return false;
        }
    }
    true
}

/// Whether these tracks are short enough to be shown.
pub fn are_short(tracks: &[Track]) -> bool
    ensures { IsTrue result → EachIsShort tracks.now }
{
    for track in tracks {
        if track.length() == 4_294_967_295 {
            return false;
        }
    }
    true
}
