// Plain, slow programs for what the definitions say, frame by frame, for tests to compare faster bodies with.
ghost use Rattle.std.specs.Prelude.{◌≡◌, ℕ, ◌+◌, ◌<◌, ◌≤◌, ◌^◌, length, option_map, IfOk, IfSome, OnOk};
ghost use Rattle.frame_meaning.specs.Going.{frame_goes_on, same_what};
ghost use Rattle.frame_meaning.specs.Marks.{covers, dissolve_from};
ghost use Rattle.frame_meaning.specs.Numbered.{IsNumbered, SideIsNumbered};
ghost use Rattle.frame_meaning.specs.Render.{frame_of, mix_at, moved, render, shown_at};
ghost use Rattle.frame_meaning.specs.Runs.{first_len, runs, with_frame};

use crate::{Cell, Frame, Mark, Run, Side, What, goes_on};
use out_of_memory::Memory;
use std::alloc::Global;

/// The frames that a track of these cells shows, place by place.
pub fn rendered(alloc: Global, cells: &[Cell]) -> Result<Vec<Frame<What>>, Memory>
    requires short { length cells.now < 2 ^ 32 }
    requires numbered { (q : ℕ) → q < length cells.now → IsNumbered (shown_at cells.now q) }
    ensures { IfOk result (λ frames. frames.items ≡ render cells.now) }
{
    let mut frames = Vec::new(alloc);
    for place in 0..cells.len() {
        frames.push(frame_at(cells, place))?;
    }
    Ok(frames)
}

// What a track of these cells shows at a place: the mix of the dissolve that covers it, or what its cell shows.
fn frame_at(cells: &[Cell], place: usize) -> Frame<What>
    requires short { length cells.now < 2 ^ 32 }
    requires within { place < length cells.now }
    requires numbered { IsNumbered (shown_at cells.now place) }
    ensures { result ≡ shown_at cells.now place }
{
    match dissolve_at(cells, place) {
        Some((cut, mark)) => mixed(cells, cut, mark, place),
        None => whole(cells[place].side),
    }
}

// The first cut whose mark's footprint holds the place, and the mark.
fn dissolve_at(cells: &[Cell], place: usize) -> Option<(usize, Mark)>
    requires short { length cells.now < 2 ^ 32 }
    requires within { place < length cells.now }
    ensures found { dissolve_from 0 cells.now place ≡ option_map (λ d. (d.0, Some d.1)) result }
    ensures cut { IfSome result (λ d. d.0 < length cells.now) }
{
    for (cut, cell) in cells.iter().enumerate() {
        match cell.mark {
            Some(mark) => {
                if is_covered(mark, cut, place) {
                    return Some((cut, mark));
                }
            }
            None => {}
        }
    }
    None
}

// Whether a dissolve at a cut covers a place: from `a` frames before the cut up to `b` frames after it.
fn is_covered(mark: Mark, cut: usize, place: usize) -> bool
    requires cut { cut < 2 ^ 32 }
    requires place { place < 2 ^ 32 }
    ensures { result ≡ covers (Some mark) cut place }
{
    cut <= place + mark.a as usize && place < cut + mark.b as usize
}

// A frame that shows one side alone.
fn whole(side: Side<What>) -> Frame<What>
    ensures { result ≡ frame_of side }
{
    match side {
        Side::Dark => Frame::Dark,
        Side::Pic { what, source } => Frame::Pic { what, source },
    }
}

// The frame of a dissolve at a place: what goes on from before the cut and what comes from after it, with
// the weight of the latter.
fn mixed(cells: &[Cell], cut: usize, mark: Mark, place: usize) -> Frame<What>
    requires short { length cells.now < 2 ^ 32 }
    requires cut { cut < length cells.now }
    requires place { place < length cells.now }
    requires numbered { IsNumbered (mix_at cells.now cut mark place) }
    ensures { result ≡ mix_at cells.now cut mark place }
{
    Frame::Mix {
        left: side_moved(cells[cut.saturating_sub(1)].side, place + 1, cut),
        right: side_moved(cells[cut].side, place, cut),
        num: ((place + mark.a as usize).saturating_sub(cut) + 1) as u32,
        den: (mark.a as usize + mark.b as usize + 1) as u32,
    }
}

// What a side shows `on` frames later and then `back` frames earlier, but no source frame below 0.
fn side_moved(side: Side<What>, on: usize, back: usize) -> Side<What>
    requires on { on ≤ 2 ^ 32 }
    requires numbered { SideIsNumbered (moved side on back) }
    ensures { result ≡ moved side on back }
{
    match side {
        Side::Dark => Side::Dark,
        Side::Pic { what, source } => Side::Pic {
            what,
            source: (source as usize + on).saturating_sub(back) as u32,
        },
    }
}

/// The maximal runs of these frames, frame by frame from the last.
pub fn runs_of(alloc: Global, frames: &[Frame<What>]) -> Result<Vec<Run<What>>, Memory>
    requires { length frames.now < 2 ^ 32 }
    ensures { IfOk result (λ all. all.items ≡ runs same_what frames.now) }
{
    let mut all = Vec::new(alloc);
    for index in (0..frames.len()).rev() {
        put_before(&mut all, frames[index])?;
    }
    Ok(all)
}

// Puts a frame before these runs: into the first of them where that goes on from it, else as a run of its own.
fn put_before(all: &mut Vec<Run<What>>, frame: Frame<What>) -> Result<(), Memory>
    requires { first_len all.old.items + 1 < 2 ^ 32 }
    ensures ok { OnOk result (all.new.items ≡ with_frame same_what frame all.old.items) }
{
    if all.len() > 0 && what_goes_on(&frame, &all[0].frame) {
        all[0].frame = frame;
        all[0].len += 1;
        return Ok(());
    }
    all.insert(0, Run { frame, len: 1 })?;
    Ok(())
}

// Whether a frame of things goes on from the one before.
fn what_goes_on(before: &Frame<What>, after: &Frame<What>) -> bool
    ensures { result ≡ frame_goes_on same_what before.now after.now }
{
    goes_on(before, after)
}
