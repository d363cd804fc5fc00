// Channels laid over one another.
ghost use Rattle.std.specs.Prelude.{◌≡◌, ℕ, ◌++◌, IfOk, OnOk, [], List, map};
ghost use Rattle.frame_meaning.specs.declared.frames.Frame.{Frame};
ghost use Rattle.frame_meaning.specs.RunFrames.{run_frames};
ghost use Rattle.flatten.specs.Strips.{AllFit, AreFit, IsFit, IsSpot, Show, frames_of, laid_on, laid_over, left_from};

use crate::strips::{FIRST, Spot, add_padded, add_rest, passed};
use composables::Listed;
use frame_meaning::{Frame, Memory, Run};
use std::alloc::Global;

/// These channels stacked, the last on top.
pub fn stack(alloc: Global, channels: &[Listed<Run<u32>>]) -> Result<Listed<Run<u32>>, Memory>
    requires { AllFit channels.now }
    ensures { IfOk result (λ all. Show all (laid_on [] (map frames_of channels.now))) }
{
    let mut all = Listed::new(alloc);
    for channel in channels {
        all = lay_over(alloc, channel.as_slice(), all.as_slice())?;
    }
    Ok(all)
}

/// A channel over another: where the upper one is dark, or has ended, the lower one is seen.
pub fn lay_over(
    alloc: Global,
    upper: &[Run<u32>],
    lower: &[Run<u32>],
) -> Result<Listed<Run<u32>>, Memory>
    requires upper { AreFit upper.now }
    requires lower { AreFit lower.now }
    ensures { IfOk result (λ all. Show all
        (laid_over (frames_of upper.now) (frames_of lower.now))) }
{
    let mut all = Listed::new(alloc);
    let mut spot = FIRST;
    for run in upper {
        spot = add_over(&mut all, *run, lower, spot)?;
    }
    add_rest(&mut all, lower, spot)?;
    Ok(all)
}

// Adds what is seen of a run over the lower channel from a spot on, and gives the spot after that.
fn add_over(
    all: &mut Listed<Run<u32>>,
    run: Run<u32>,
    lower: &[Run<u32>],
    spot: Spot,
) -> Result<Spot, Memory>
    requires all { AreFit all.old }
    requires run { IsFit run }
    requires lower { AreFit lower.now }
    requires spot { IsSpot lower.now spot }
    ensures added { IfOk result (λ s. (rest : List (Frame ℕ))
        → frames_of all.new ++ laid_over rest (left_from lower.now s)
        ≡ frames_of all.old ++ laid_over (run_frames run ++ rest) (left_from lower.now spot)) }
    ensures all { OnOk result (AreFit all.new) }
    ensures spot { IfOk result (λ s. IsSpot lower.now s) }
{
    match run.frame {
        Frame::Dark => {
            let behind = add_padded(all, lower, spot, run.len)?;
            Ok(behind)
        }
        _ => {
            all.push(run)?;
            Ok(passed(lower, spot, run.len))
        }
    }
}
