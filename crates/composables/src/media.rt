// The table of a room: the kinds of its tracks, its reels, media and nests.
ghost use Rattle.std.specs.Prelude.{◌≡◌, ◌↔◌, IfOk, IsTrue};
ghost use Rattle.composables.specs.Good.{LiesIn};

use crate::{Listed, Memory, Reels, Track};
use frame_meaning::{Side, What};
use std::alloc::Global;

/// What a track carries.
#[derive(Clone, Copy, Debug, PartialEq, Eq)]
pub enum Kind {
    Video,
    Audio,
}

/// A media entry: a reel, and the source frames [from, to) that it has.
#[derive(Clone, Copy, Debug, PartialEq, Eq)]
pub struct Media {
    pub reel: u32,
    pub from: u32,
    pub to: u32,
}

/// A layer of a nest: the places [from, to) of a track, and dark after them.
#[derive(Drop)]
pub struct Layer {
    pub track: Track,
    pub from: u32,
    pub to: u32,
}

/// A nest: layers that lie over one another, the last on top, and its length in frames. The nests that stand in a
/// layer have lower numbers than this one.
#[derive(Drop)]
pub struct Nest {
    pub layers: Listed<Layer>,
    pub length: u32,
}

impl Layer {
    /// An equal layer, whose track shares all its items and gaps with this one's.
    pub fn copy(&self, alloc: Global) -> Result<Layer, Memory>
        ensures { IfOk result (λ l. l ≡ self.now) }
    {
        let track = self.track.copy(alloc)?;
        Ok(Layer {
            track,
            from: self.from,
            to: self.to,
        })
    }
}

impl Nest {
    /// An equal nest, whose tracks share all their items and gaps with this one's.
    pub fn copy(&self, alloc: Global) -> Result<Nest, Memory>
        ensures { IfOk result (λ n. n ≡ self.now) }
    {
        let layers = copy_layers(alloc, self.layers.as_slice())?;
        Ok(Nest {
            layers,
            length: self.length,
        })
    }
}

/// What the numbers in a cut stand for: track t is of kind t, a media entry names a reel by its number, and `@m` and
/// `#j` are entries m and j of the lists of media and nests.
#[derive(Drop)]
pub struct Table {
    pub kinds: Listed<Kind>,
    pub reels: Reels,
    pub media: Listed<Media>,
    pub nests: Listed<Nest>,
}

impl Table {
    ghost use Rattle.composables.specs.Bounds.{bounds_of};
    ghost use Rattle.composables.specs.Good.{SideLiesIn};

    /// The source frames [from, to) that a thing has, or `None` where it is not in the table.
    pub fn bounds(&self, what: What) -> Option<(u32, u32)>
        ensures { result ≡ bounds_of self.now what }
    {
        match what {
            What::Media(m) => {
                let media = self.media.as_slice().get(m as usize)?;
                Some((media.from, media.to))
            }
            What::Nest(j) => {
                let nest = self.nests.as_slice().get(j as usize)?;
                Some((0, nest.length))
            }
        }
    }

    /// Whether what an item shows lies in its thing's range, with this many source frames before it and after it.
    pub fn lies_in(&self, side: Side<What>, len: u32, before: u32, after: u32) -> bool
        ensures { IsTrue result ↔ SideLiesIn self.now side len before after }
    {
        match side {
            Side::Dark => true,
            Side::Pic { what, source } => lies_in(self.bounds(what), source, len, before, after),
        }
    }

    /// An equal table. The tracks of its nests share all their items and gaps with this one's.
    pub fn copy(&self, alloc: Global) -> Result<Table, Memory>
        ensures { IfOk result (λ t. t ≡ self.now) }
    {
        let kinds = self.kinds.copy(alloc)?;
        let reels = self.reels.copy(alloc)?;
        let media = self.media.copy(alloc)?;
        let nests = copy_nests(alloc, self.nests.as_slice())?;
        Ok(Table {
            kinds,
            reels,
            media,
            nests,
        })
    }
}

// Whether `len` frames from `source` on lie within these bounds, with this many frames before them and after them.
fn lies_in(bounds: Option<(u32, u32)>, source: u32, len: u32, before: u32, after: u32) -> bool
    ensures { IsTrue result ↔ LiesIn bounds source len before after }
{
    match bounds {
        Some((from, to)) => {
            u64::from(from) + u64::from(before) <= u64::from(source)
                && u64::from(source) + u64::from(len) + u64::from(after) <= u64::from(to)
        }
        None => false,
    }
}

// Equal layers, whose tracks share all their items and gaps with these.
fn copy_layers(alloc: Global, layers: &[Layer]) -> Result<Listed<Layer>, Memory>
    ensures { IfOk result (λ all. all ≡ layers.now) }
{
    let mut all = Listed::new(alloc);
    for layer in layers {
        all.push(layer.copy(alloc)?)?;
    }
    Ok(all)
}

// Equal nests, whose tracks share all their items and gaps with these.
fn copy_nests(alloc: Global, nests: &[Nest]) -> Result<Listed<Nest>, Memory>
    ensures { IfOk result (λ all. all ≡ nests.now) }
{
    let mut all = Listed::new(alloc);
    for nest in nests {
        all.push(nest.copy(alloc)?)?;
    }
    Ok(all)
}
