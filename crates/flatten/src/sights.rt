// What is seen of layers, with marks where a fade hides a picture.
ghost use Rattle.std.specs.Prelude.{◌≡◌, ℕ, ◌≤◌, [], IfOk, length, map};
ghost use Rattle.frame_meaning.specs.declared.frames.Frame.TheVariants.{Mix, Pic};
ghost use Rattle.flatten.specs.Hiding.{is_black};
ghost use Rattle.flatten.specs.Marks.{AllComposed, IsComposed, Shows, extent, is_hiding, laid_marks, marked, marked_run, seen_of};
ghost use Rattle.flatten.specs.Strips.{AreFit, Show, frames_of, laid_over};

use crate::stacks::lay_over;
use composables::Listed;
use frame_meaning::{Frame, Memory, Run, Side};
use std::alloc::Global;

/// What is seen of some layers, and marks of it: pictures of 1 where a fade hides a picture, others where it does not.
#[derive(Drop)]
pub struct Sights {
    pub frames: Listed<Run<u32>>,
    pub marks: Listed<Run<u32>>,
}

/// How frames are marked.
#[derive(Clone, Copy, Debug, PartialEq, Eq)]
pub enum Marking {
    /// Those of a layer: fades, and all others that are seen.
    Fades,
    /// What is seen below a layer.
    Below,
    /// Of the two before, the first over the second: where the layer has nothing below it.
    Open,
    /// Where a fade within a nest of the layer hides a picture.
    Within,
}

// Nothing that is seen.
fn nothing_seen(alloc: Global) -> Sights
    ensures { result ≡ record { frames = []; marks = [] } }
{
    Sights {
        frames: Listed::new(alloc),
        marks: Listed::new(alloc),
    }
}

// A layer over what is seen below it.
fn lay_layer(alloc: Global, layer: &Sights, below: &Sights) -> Result<Sights, Memory>
    requires layer { IsComposed layer.now }
    requires below { IsComposed below.now }
    ensures frames { IfOk result (λ s. Show s.frames
        (laid_over (frames_of layer.now.frames) (frames_of below.now.frames))) }
    ensures marks { IfOk result (λ s. Show s.marks
        (laid_marks (frames_of layer.now.frames) (frames_of layer.now.marks)
        (frames_of below.now.frames) (frames_of below.now.marks))) }
{
    let frames = lay_over(alloc, layer.frames.as_slice(), below.frames.as_slice())?;
    let marks = lay_marks(alloc, layer, below)?;
    Ok(Sights { frames, marks })
}

/// These layers, each over those before it.
pub fn lay_layers(alloc: Global, layers: &[Sights]) -> Result<Sights, Memory>
    requires { AllComposed layers.now }
    ensures shows { IfOk result (λ s. Shows s (map seen_of layers.now)) }
    ensures extent { IfOk result (λ s. length (frames_of s.marks)
        ≤ extent (map seen_of layers.now)) }
{
    let mut below = nothing_seen(alloc);
    for layer in layers {
        below = lay_layer(alloc, layer, &below)?;
    }
    Ok(below)
}

// The marks of a layer over those of what is below it.
fn lay_marks(alloc: Global, layer: &Sights, below: &Sights) -> Result<Listed<Run<u32>>, Memory>
    requires layer { IsComposed layer.now }
    requires below { IsComposed below.now }
    ensures { IfOk result (λ all. Show all
        (laid_marks (frames_of layer.now.frames) (frames_of layer.now.marks)
        (frames_of below.now.frames) (frames_of below.now.marks))) }
{
    let fades = mark_runs(alloc, Marking::Fades, layer.frames.as_slice())?;
    let under = mark_runs(alloc, Marking::Below, below.frames.as_slice())?;
    let both = lay_over(alloc, under.as_slice(), fades.as_slice())?;
    let open = mark_runs(alloc, Marking::Open, both.as_slice())?;
    let within = mark_runs(alloc, Marking::Within, layer.marks.as_slice())?;
    let plain = lay_over(alloc, fades.as_slice(), below.marks.as_slice())?;
    let hidden = lay_over(alloc, open.as_slice(), plain.as_slice())?;
    lay_over(alloc, within.as_slice(), hidden.as_slice())
}

// These runs with their frames marked.
fn mark_runs(alloc: Global, how: Marking, runs: &[Run<u32>]) -> Result<Listed<Run<u32>>, Memory>
    requires { AreFit runs.now }
    ensures { IfOk result (λ all. Show all (map (marked how) (frames_of runs.now))) }
{
    let marked = marked_runs(alloc, how, runs)?;
    Ok(marked)
}

// The same, run by run.
fn marked_runs(alloc: Global, how: Marking, runs: &[Run<u32>]) -> Result<Listed<Run<u32>>, Memory>
    ensures { IfOk result (λ all. all ≡ map (marked_run how) runs.now) }
{
    let mut all = Listed::new(alloc);
    for run in runs {
        all.push(Run {
            frame: marked(how, run.frame),
            len: run.len,
        })?;
    }
    Ok(all)
}

// A frame as it is marked.
fn marked(how: Marking, frame: Frame<u32>) -> Frame<u32>
    ensures { result ≡ marked how frame }
{
    match frame {
        Frame::Dark => Frame::Dark,
        Frame::Pic { what, source } => marked_picture(how, what, source),
        Frame::Mix {
            left,
            right,
            num,
            den: _,
        } => marked_mix(how, left, right, num),
    }
}

// A picture as it is marked.
fn marked_picture(how: Marking, what: u32, source: u32) -> Frame<u32>
    ensures { result ≡ marked how (Pic what source) }
{
    match how {
        Marking::Fades => Frame::Pic { what: 0, source },
        Marking::Below => Frame::Pic { what: 2, source },
        Marking::Open => {
            if what == 2 {
                Frame::Dark
            } else {
                Frame::Pic { what: 0, source }
            }
        }
        Marking::Within => {
            if what == 1 {
                Frame::Pic { what: 1, source }
            } else {
                Frame::Dark
            }
        }
    }
}

// A mix as it is marked.
fn marked_mix(how: Marking, left: Side<u32>, right: Side<u32>, num: u32) -> Frame<u32>
    ensures { (den : ℕ) → result ≡ marked how (Mix left right num den) }
{
    match how {
        Marking::Fades => {
            let what = if is_black(left) || is_black(right) {
                1
            } else {
                0
            };
            Frame::Pic { what, source: num }
        }
        Marking::Below => Frame::Pic {
            what: 2,
            source: num,
        },
        Marking::Open => Frame::Dark,
        Marking::Within => Frame::Dark,
    }
}

// Whether a side of a mix is black.
fn is_black(side: Side<u32>) -> bool
    ensures { result ≡ is_black side }
{
    match side {
        Side::Dark => true,
        Side::Pic { .. } => false,
    }
}

/// Whether a fade hides a picture where this is the mark.
pub fn is_hiding(mark: Frame<u32>) -> bool
    ensures { result ≡ is_hiding mark }
{
    match mark {
        Frame::Pic { what, .. } => what == 1,
        _ => false,
    }
}
