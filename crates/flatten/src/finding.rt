// Runs of reels in which a place is found.
ghost use Rattle.std.specs.Prelude.{◌≡◌, ◌+◌, ◌<◌, ◌≤◌, ◌^◌, IfOk, drop, length, slice_index_or};
ghost use Rattle.flatten.specs.Ends.{begin_of, ends_of};
ghost use Rattle.flatten.specs.Strips.{AreFit, IsSpot, frames_of, left_from};

use crate::strips::Spot;
use composables::Listed;
use frame_meaning::{Memory, Run};
use std::alloc::Global;
use std::marker::Model;

/// Runs with the places where they end. Contracts see the runs.
#[derive(Drop)]
pub struct Strip {
    runs: Listed<Run<u32>>,
    ends: Listed<u32>,
}

impl Model for Strip {
    ghost use Rattle.std.specs.Prelude.{◌≡◌, ℕ, List};
    ghost use Rattle.frame_meaning.specs.declared.frames.Run.{Run};
    ghost use Rattle.flatten.specs.Ends.{ends_of};

    ghost Value = { List (Run ℕ) };

    ghost view = { λ s. s.runs };

    ghost invariant = { λ s. s.ends ≡ ends_of 0 s.runs };
}

impl Strip {
    /// The strip of these runs.
    pub fn new(alloc: Global, runs: Listed<Run<u32>>) -> Result<Strip, Memory>
        requires { length (frames_of runs) < 2 ^ 32 }
        ensures { IfOk result (λ s. s ≡ runs) }
    {
        let ends = ends_of(alloc, runs.as_slice())?;
        Ok(Strip { runs, ends })
    }

    /// The runs, in order.
    pub fn as_slice(&self) -> &[Run<u32>]
        ensures { result.now ≡ self.now }
    {
        self.runs.as_slice()
    }

    /// The spot before the frame at a place, or the end. It takes as many steps as the number of runs has digits in
    /// base 2.
    pub fn spot_at(&self, place: u32) -> Spot
        requires { AreFit self.now }
        ensures spot { IsSpot self.now result }
        ensures frames { left_from self.now result ≡ drop place (frames_of self.now) }
    {
        spot_in(self.ends.as_slice(), place)
    }
}

// The place at which each run ends, which is where the next one begins.
fn ends_of(alloc: Global, runs: &[Run<u32>]) -> Result<Listed<u32>, Memory>
    requires { length (frames_of runs.now) < 2 ^ 32 }
    ensures { IfOk result (λ ends. ends ≡ ends_of 0 runs.now) }
{
    let mut ends = Listed::new(alloc);
    let mut at = 0;
    for run in runs {
        at += run.len;
        ends.push(at)?;
    }
    Ok(ends)
}

// The spot before a place of the runs with these ends.
fn spot_in(ends: &[u32], place: u32) -> Spot
    ensures index { result.index ≤ length ends.now }
    ensures begun { begin_of 0 ends.now result.index ≤ place }
    ensures behind { result.index < length ends.now
        → place < slice_index_or ends.now result.index 0 }
    ensures used { result.index < length ends.now
        → begin_of 0 ends.now result.index + result.used ≡ place }
    ensures end { length ends.now ≤ result.index → result.used ≡ 0 }
{
    let index = first_behind(ends, place);
    if index == ends.len() {
        return Spot { index, used: 0 };
    }
    let used = place - begin_at(ends, index);
    Spot { index, used }
}

// The index of the first end after a place: that of the run which holds the place.
fn first_behind(ends: &[u32], place: u32) -> usize
    ensures index { result ≤ length ends.now }
    ensures begun { begin_of 0 ends.now result ≤ place }
    ensures behind { result < length ends.now → place < slice_index_or ends.now result 0 }
{
    let mut low = 0;
    let mut high = ends.len();
    while low < high {
        let middle = low + (high - low) / 2;
        if ends[middle] <= place {
            low = middle + 1;
        } else {
            high = middle;
        }
    }
    low
}

// The place at which the run with an index begins.
fn begin_at(ends: &[u32], index: usize) -> u32
    requires { index ≤ length ends.now }
    ensures { result ≡ begin_of 0 ends.now index }
{
    if index == 0 {
        return 0;
    }
    ends[index - 1]
}
