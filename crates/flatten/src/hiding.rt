// Fades that hide a picture. A fade is a mix with black: where it lies over something, that is hidden for its frames.
ghost use Rattle.std.specs.Prelude.{◌≡◌, ◌+◌, ◌<◌, ◌≤◌, ◌^◌, ◌++◌, [], ◌∷◌, IfOk, OnOk, length, map};
ghost use Rattle.frame_meaning.specs.Render.{render};
ghost use Rattle.dissolves.specs.Pieces.{cut};
ghost use Rattle.composables.specs.declared.media.Kind.TheVariants.{Video};
ghost use Rattle.flatten.specs.Channels.{AreSound, EachIsShort, EachLiesInTrack, of_kind};
ghost use Rattle.flatten.specs.Hiding.{AreHiding, hides_of_nests, layer_of, nest_hides, nest_layer, track_layer};
ghost use Rattle.flatten.specs.Marks.{AllComposed, IsComposed, Shows, fades_from, hides_of, seen_of};
ghost use Rattle.flatten.specs.Nests.{frames_of_nests};
ghost use Rattle.flatten.specs.Strips.{AllFit, AreFit, ShowEach, frames_of};

use crate::channels::is_of_kind;
use crate::finding::Strip;
use crate::joins::join_runs;
use crate::nests::{nest_strips, padded_strip, strip_of};
use crate::sights::{Sights, is_hiding, lay_layers};
use composables::{Kind, Layer, Listed, Media, Nest, Table, Track};
use frame_meaning::{Memory, Run};
use std::alloc::Global;

/// Frames of the record, [from, to), over which a fade hides a picture. They are counted from the first of the room.
#[derive(Clone, Copy, Debug, PartialEq, Eq)]
pub struct HidingFade {
    pub from: u32,
    pub to: u32,
}

/// The frames of the record over which a fade hides a picture, in order: those of a fade on a track over what is below it,
/// and those of one on a layer of a nest over what is below it there, as far as they are seen. The tracks are of the table's
/// kinds in order. It composes runs, as `flatten` does.
pub fn find_hiding_fades(
    alloc: Global,
    table: &Table,
    tracks: &[Track],
) -> Result<Listed<HidingFade>, Memory>
    requires layers { AreSound table.now.nests }
    requires tracks { EachIsShort tracks.now }
    ensures { IfOk result (λ all. AreHiding all table.now tracks.now) }
{
    let seen = video_sights(alloc, table, tracks)?;
    let joined = join_runs(alloc, seen.marks.as_slice())?;
    let fades = list_fades(alloc, joined.as_slice())?;
    Ok(fades)
}

// What is seen of the record, with marks where a fade hides a picture.
fn video_sights(alloc: Global, table: &Table, tracks: &[Track]) -> Result<Sights, Memory>
    requires layers { AreSound table.now.nests }
    requires tracks { EachIsShort tracks.now }
    ensures shows { IfOk result (λ s. Shows s
        (map (track_layer table.now) (of_kind Video table.now.kinds tracks.now))) }
    ensures short { IfOk result (λ s. length (frames_of s.marks) < 2 ^ 32) }
{
    let nests = nest_strips(alloc, table)?;
    let marks = nest_marks(alloc, table, nests.as_slice())?;
    let layers = video_layers(alloc, table, nests.as_slice(), marks.as_slice(), tracks)?;
    let seen = lay_layers(alloc, layers.as_slice())?;
    Ok(seen)
}

// Marks of where a fade in a nest hides a picture, for each nest of a table in order. The nests show these.
fn nest_marks(alloc: Global, table: &Table, nests: &[Strip]) -> Result<Listed<Strip>, Memory>
    requires layers { AreSound table.now.nests }
    requires nests { ShowEach nests.now (frames_of_nests table.now) }
    ensures hides { IfOk result (λ all. map hides_of all ≡ hides_of_nests table.now) }
    ensures fit { IfOk result (λ all. AllFit all) }
{
    let mut all = Listed::new(alloc);
    for nest in table.nests.as_slice() {
        let strip = marks_of_nest(alloc, table.media.as_slice(), nests, all.as_slice(), nest)?;
        all.push(strip)?;
    }
    Ok(all)
}

// The same of one nest, with the marks of those before it.
fn marks_of_nest(
    alloc: Global,
    media: &[Media],
    nests: &[Strip],
    marks: &[Strip],
    nest: &Nest,
) -> Result<Strip, Memory>
    requires nests { AllFit nests.now }
    requires marks { AllFit marks.now }
    requires layers { EachLiesInTrack nest.now.layers }
    ensures hides { IfOk result (λ strip. hides_of strip
        ≡ nest_hides media.now (map frames_of nests.now) (map hides_of marks.now) nest.now) }
    ensures fit { IfOk result (λ strip. AreFit strip) }
{
    let layers = nest_layers(alloc, media, nests, marks, nest.layers.as_slice())?;
    let seen = lay_layers(alloc, layers.as_slice())?;
    let strip = padded_strip(alloc, seen.marks.as_slice(), nest.length)?;
    Ok(strip)
}

// The layers of a nest, in order.
fn nest_layers(
    alloc: Global,
    media: &[Media],
    nests: &[Strip],
    marks: &[Strip],
    layers: &[Layer],
) -> Result<Listed<Sights>, Memory>
    requires nests { AllFit nests.now }
    requires marks { AllFit marks.now }
    requires layers { EachLiesInTrack layers.now }
    ensures seen { IfOk result (λ all. map seen_of all
        ≡ map (nest_layer media.now (map frames_of nests.now) (map hides_of marks.now))
        layers.now) }
    ensures composed { IfOk result (λ all. AllComposed all) }
{
    let mut all = Listed::new(alloc);
    for layer in layers {
        let sights = sights_of(
            alloc,
            media,
            nests,
            marks,
            &layer.track,
            layer.from,
            layer.to,
        )?;
        all.push(sights)?;
    }
    Ok(all)
}

// The video tracks as layers, in order.
fn video_layers(
    alloc: Global,
    table: &Table,
    nests: &[Strip],
    marks: &[Strip],
    tracks: &[Track],
) -> Result<Listed<Sights>, Memory>
    requires nests { ShowEach nests.now (frames_of_nests table.now) }
    requires marks { AllFit marks.now }
    requires hides { map hides_of marks.now ≡ hides_of_nests table.now }
    requires tracks { EachIsShort tracks.now }
    ensures seen { IfOk result (λ all. map seen_of all
        ≡ map (track_layer table.now) (of_kind Video table.now.kinds tracks.now)) }
    ensures composed { IfOk result (λ all. AllComposed all) }
{
    let mut all = Listed::new(alloc);
    for (index, track) in tracks.iter().enumerate() {
        if is_of_kind(table, index, Kind::Video) {
            let media = table.media.as_slice();
            let sights = sights_of(alloc, media, nests, marks, track, 0, track.length())?;
            all.push(sights)?;
        }
    }
    Ok(all)
}

// The places [from, to) of a track as a layer, where the nests show these, with these marks.
fn sights_of(
    alloc: Global,
    media: &[Media],
    nests: &[Strip],
    marks: &[Strip],
    track: &Track,
    from: u32,
    to: u32,
) -> Result<Sights, Memory>
    requires nests { AllFit nests.now }
    requires marks { AllFit marks.now }
    requires order { from ≤ to }
    requires within { to ≤ length track.now.cells }
    requires short { length track.now.cells < 4294967295 }
    ensures seen { IfOk result (λ s. seen_of s
        ≡ layer_of media.now (map frames_of nests.now) (map hides_of marks.now)
        (cut from to (render track.now.cells))) }
    ensures composed { IfOk result (λ s. IsComposed s) }
{
    let frames = strip_of(alloc, media, nests, track, from, to)?;
    let marks = strip_of(alloc, &[], marks, track, from, to)?;
    Ok(Sights { frames, marks })
}

// The places at which marks say that a fade hides a picture, a run of them after another.
fn list_fades(alloc: Global, marks: &[Run<u32>]) -> Result<Listed<HidingFade>, Memory>
    requires { length (frames_of marks.now) < 2 ^ 32 }
    ensures { IfOk result (λ all. all ≡ fades_from 0 marks.now) }
{
    let mut all = Listed::new(alloc);
    let mut at = 0;
    for run in marks {
        at = add_fade(&mut all, *run, at)?;
    }
    Ok(all)
}

// Adds the places of a run of marks which begins at a place, where a fade hides a picture there, and gives the place after
// them.
fn add_fade(all: &mut Listed<HidingFade>, run: Run<u32>, at: u32) -> Result<u32, Memory>
    requires { at + run.len < 2 ^ 32 }
    ensures end { IfOk result (λ to. to ≡ at + run.len) }
    ensures added { OnOk result (all.new ≡ all.old ++ fades_from at (run ∷ [])) }
{
    let to = at + run.len;
    if is_hiding(run.frame) {
        all.push(HidingFade { from: at, to })?;
    }
    Ok(to)
}
