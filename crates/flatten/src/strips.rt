// Runs of reels, taken from a spot on.
ghost use Rattle.std.specs.Prelude.{◌≡◌, ◌+◌, ◌<◌, ◌≤◌, ◌++◌, IfSome, IsNone, OnOk, IfOk, [], drop, length, slice_get};
ghost use Rattle.frame_meaning.specs.RunFrames.{run_frames};
ghost use Rattle.dissolves.specs.Pieces.{Reaches, later_frame};
ghost use Rattle.flatten.specs.Strips.{AreFit, IsFit, IsSpot, frames_of, left_from, padded};

use composables::Listed;
use frame_meaning::{Frame, Memory, Run};

/// A spot in some runs: after `used` frames of the run with this index.
#[derive(Clone, Copy, Debug, PartialEq, Eq)]
pub struct Spot {
    pub index: usize,
    pub used: u32,
}

/// The spot before the first frame.
pub const FIRST: Spot = Spot { index: 0, used: 0 };

/// The frame that goes on from a frame, that many frames later.
pub fn later_frame(frame: Frame<u32>, n: u32) -> Frame<u32>
    requires { Reaches frame (n + 1) }
    ensures { result ≡ later_frame frame n }
{
    match frame {
        Frame::Dark => Frame::Dark,
        Frame::Pic { what, source } => Frame::Pic {
            what,
            source: source + n,
        },
        Frame::Mix {
            left,
            right,
            num,
            den,
        } => Frame::Mix {
            left: left.later(n),
            right: right.later(n),
            num: num + n,
            den,
        },
    }
}

/// What is left of the run at a spot, at most so many frames of it, and the spot after it; `None` at the end.
pub fn part_at(runs: &[Run<u32>], spot: Spot, most: u32) -> Option<(Run<u32>, Spot)>
    requires fit { AreFit runs.now }
    requires spot { IsSpot runs.now spot }
    requires most { 0 < most }
    ensures frames { IfSome result (λ p. left_from runs.now spot
        ≡ run_frames p.0 ++ left_from runs.now p.1) }
    ensures fit { IfSome result (λ p. IsFit p.0) }
    ensures spot { IfSome result (λ p. IsSpot runs.now p.1) }
    ensures most { IfSome result (λ p. p.0.len ≤ most) }
    ensures end { IsNone result → left_from runs.now spot ≡ [] }
{
    let run = run_at(runs, spot.index)?;
    let frame = later_frame(run.frame, spot.used);
    let len = run.len - spot.used;
    if len <= most {
        let behind = Spot {
            index: spot.index + 1,
            used: 0,
        };
        return Some((Run { frame, len }, behind));
    }
    let behind = Spot {
        index: spot.index,
        used: spot.used + most,
    };
    Some((Run { frame, len: most }, behind))
}

// The run with an index, if there is one.
fn run_at(runs: &[Run<u32>], index: usize) -> Option<Run<u32>>
    ensures run { result ≡ slice_get runs.now index }
    ensures within { IfSome result (λ _. index < length runs.now) }
{
    runs.get(index).copied()
}

/// The spot that many frames later, or the end.
pub fn passed(runs: &[Run<u32>], spot: Spot, n: u32) -> Spot
    requires fit { AreFit runs.now }
    requires spot { IsSpot runs.now spot }
    ensures spot { IsSpot runs.now result }
    ensures frames { left_from runs.now result ≡ drop n (left_from runs.now spot) }
{
    let mut here = spot;
    let mut left = n;
    while left > 0 {
        match part_at(runs, here, left) {
            Some((run, behind)) => {
                here = behind;
                left -= run.len;
            }
            None => return here,
        }
    }
    here
}

/// Adds that many frames from a spot on, with dark frames after them where there are fewer, and gives the spot after
/// them.
pub fn add_padded(
    all: &mut Listed<Run<u32>>,
    runs: &[Run<u32>],
    spot: Spot,
    n: u32,
) -> Result<Spot, Memory>
    requires all { AreFit all.old }
    requires fit { AreFit runs.now }
    requires spot { IsSpot runs.now spot }
    ensures added { OnOk result (frames_of all.new
        ≡ frames_of all.old ++ padded n (left_from runs.now spot)) }
    ensures all { OnOk result (AreFit all.new) }
    ensures spot { IfOk result (λ s. IsSpot runs.now s) }
    ensures frames { IfOk result (λ s. left_from runs.now s ≡ drop n (left_from runs.now spot)) }
{
    let mut here = spot;
    let mut left = n;
    while left > 0 {
        match part_at(runs, here, left) {
            Some((run, behind)) => {
                all.push(run)?;
                here = behind;
                left -= run.len;
            }
            None => {
                all.push(Run {
                    frame: Frame::Dark,
                    len: left,
                })?;
                return Ok(here);
            }
        }
    }
    Ok(here)
}

/// Adds all frames from a spot on.
pub fn add_rest(all: &mut Listed<Run<u32>>, runs: &[Run<u32>], spot: Spot) -> Result<(), Memory>
    requires all { AreFit all.old }
    requires fit { AreFit runs.now }
    requires spot { IsSpot runs.now spot }
    ensures added { OnOk result (frames_of all.new ≡ frames_of all.old ++ left_from runs.now spot) }
    ensures all { OnOk result (AreFit all.new) }
{
    let mut here = spot;
    while let Some((run, behind)) = part_at(runs, here, u32::MAX) {
        all.push(run)?;
        here = behind;
    }
    Ok(())
}
