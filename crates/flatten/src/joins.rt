// Runs joined where they go on.
ghost use Rattle.std.specs.Prelude.{◌≡◌, ℕ, ◌+◌, ◌<◌, ◌≤◌, ◌^◌, ◌++◌, IfOk, List, length};
ghost use Rattle.frame_meaning.specs.declared.frames.Frame.{Frame};
ghost use Rattle.frame_meaning.specs.RunFrames.{run_frames};
ghost use Rattle.flatten.specs.Channels.{maximal_runs};
ghost use Rattle.flatten.specs.Strips.{AreFit, IsFit, IsHeld, frames_of, held_frames};

use crate::strips::later_frame;
use composables::Listed;
use frame_meaning::{Memory, Run, goes_on};
use std::alloc::Global;

/// The maximal runs of the frames of these runs.
pub fn join_runs(alloc: Global, strip: &[Run<u32>]) -> Result<Listed<Run<u32>>, Memory>
    requires fit { AreFit strip.now }
    requires short { length (frames_of strip.now) < 2 ^ 32 }
    ensures { IfOk result (λ all. all ≡ maximal_runs (frames_of strip.now)) }
{
    let mut all = Listed::new(alloc);
    let mut held = None;
    for run in strip {
        held = Some(add_run(&mut all, held, *run)?);
    }
    match held {
        Some(last) => {
            all.push(last)?;
            Ok(all)
        }
        None => Ok(all),
    }
}

// Adds a run after those so far, of which the last is held back: it is made longer where the run goes on from it, and
// else it is added, and the run is held.
fn add_run(
    all: &mut Listed<Run<u32>>,
    held: Option<Run<u32>>,
    run: Run<u32>,
) -> Result<Run<u32>, Memory>
    requires held { IsHeld held }
    requires run { IsFit run }
    requires short { length (held_frames held) + run.len < 2 ^ 32 }
    ensures added { IfOk result (λ r. (rest : List (Frame ℕ))
        → all.new ++ maximal_runs (run_frames r ++ rest)
        ≡ all.old ++ maximal_runs (held_frames held ++ run_frames run ++ rest)) }
    ensures fit { IfOk result (λ r. IsFit r) }
    ensures len { IfOk result (λ r. r.len ≤ length (held_frames held) + run.len) }
{
    let Some(before) = held else {
        return Ok(run);
    };
    let last = later_frame(before.frame, before.len - 1);
    if goes_on(&last, &run.frame) {
        return Ok(Run {
            frame: before.frame,
            len: before.len + run.len,
        });
    }
    all.push(before)?;
    Ok(run)
}
