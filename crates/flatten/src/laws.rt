// What is true of all channels.
ghost use Rattle.std.specs.Prelude.{◌≡◌, ℕ, List, None};
ghost use Rattle.frame_meaning.specs.declared.frames.Frame.{Frame};
ghost use Rattle.flatten.specs.declared.cutting.Segment.{Segment};
ghost use Rattle.flatten.specs.Channels.{maximal_runs};
ghost use Rattle.flatten.specs.Segments.{AreSegments, first_partial};
ghost use Rattle.flatten.specs.Strips.{frames_of};

/// A channel is cut into segments in one way at most.
pub fn a_channel_has_one_cutting()
    ensures { (ss ts : List Segment) (frames : List (Frame ℕ))
        → AreSegments ss frames → AreSegments ts frames → ss ≡ ts }
{}

/// A channel that is cut into segments has no run of mixed frames but whole dissolves.
pub fn a_part_of_a_dissolve_has_no_cutting()
    ensures { (ss : List Segment) (frames : List (Frame ℕ))
        → AreSegments ss frames → first_partial 0 (maximal_runs frames) ≡ None }
{}

/// The maximal runs of a channel, one after another, are its frames.
pub fn the_runs_of_a_channel_are_its_frames()
    ensures { (frames : List (Frame ℕ)) → frames_of (maximal_runs frames) ≡ frames }
{}
