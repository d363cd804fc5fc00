// What is true of all frames.
ghost use Rattle.std.specs.Prelude.{ℕ, nat_eq};
ghost use Rattle.frame_meaning.specs.declared.cells.What.{What};
ghost use Rattle.frame_meaning.specs.Going.{same_what};
ghost use Rattle.frame_meaning.specs.RunFrames.{RunsAreMaximal, RunsAreTheFrames};

/// The runs of a list of frames are maximal, and one after another they are the frames: of frames of things, as a track
/// shows them, and of frames of reels, which have numbers, as a channel does.
pub fn runs_are_maximal_and_all()
    ensures frames { RunsAreTheFrames What same_what }
    ensures maximal { RunsAreMaximal What same_what }
    ensures reel_frames { RunsAreTheFrames ℕ nat_eq }
    ensures reel_maximal { RunsAreMaximal ℕ nat_eq }
{}
