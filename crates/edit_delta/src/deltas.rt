// The delta that is used, between the two ends of those allowed.
ghost use Rattle.std.specs.Prelude.{◌≡◌};
ghost use Rattle.edit_delta.specs.Nearest.{lies_within, nearest};
ghost use Rattle.edit_delta.specs.Using.{IsUsed, IsWayOf};

use composables::Done;

/// A delta by its way: none, or so many frames later or earlier.
#[derive(Clone, Copy, Debug, PartialEq, Eq)]
pub enum Way {
    Still,
    Later(u32),
    Earlier(u32),
}

/// The delta that an edit uses, by its way, and what the edit answers.
#[derive(Clone, Copy, Debug, PartialEq, Eq)]
pub struct Used {
    pub way: Way,
    pub done: Done,
}

/// The delta that an edit uses of one asked for, where at most `earlier` frames earlier and at most `later` frames later
/// are allowed.
pub fn used_within(by: i32, earlier: u32, later: u32) -> Used
    ensures { IsUsed (nearest (lies_within earlier later) by) result }
{
    let used = nearest_within(by, earlier, later);
    Used {
        way: way_of(used),
        done: Done::By(used),
    }
}

/// The delta between 0 and `by` that is nearest to `by`, where at most `earlier` frames earlier and at most `later`
/// frames later are allowed.
pub fn nearest_within(by: i32, earlier: u32, later: u32) -> i32
    ensures { result ≡ nearest (lies_within earlier later) by }
{
    let asked = by.unsigned_abs();
    if by < 0 {
        if asked <= earlier {
            by
        } else {
            -(earlier as i32)
        }
    } else if asked <= later {
        by
    } else {
        later as i32
    }
}

/// The way of a delta, and its frames.
pub fn way_of(by: i32) -> Way
    ensures { IsWayOf by result }
{
    let frames = by.unsigned_abs();
    if by > 0 {
        Way::Later(frames)
    } else if by < 0 {
        Way::Earlier(frames)
    } else {
        Way::Still
    }
}
