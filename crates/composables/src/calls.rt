// The calls that edit a cut. Names and meanings are those of OpenTimelineIO's editAlgorithm, but for `Extract`,
// `Dissolve`, `Undissolve`, `Link3` and `Unlink`, and for edits over several named tracks, which are this project's
// own. Places and lengths are record frames, `from` is a source frame, `by` is a delta in frames, positive is later,
// and bit t of `tracks` names track t. With `keep` dissolves beside the edit are made shorter where it leaves them no
// room, and stay; without it those are dropped.
ghost use Rattle.std.specs.Prelude.{bytes_eq};
ghost use Rattle.std.specs.Cmp.{partial_equiv_from_equiv};
ghost use Rattle.std.specs.Cmp.Lexicographic.{nat_list_eq_equiv};

use crate::Listed;
use frame_meaning::What;

/// An end of an item.
#[derive(Clone, Copy, Debug, PartialEq, Eq)]
pub enum End {
    Head,
    Tail,
}

/// How much a `Fill` puts into its gap.
#[derive(Clone, Copy, Debug, PartialEq, Eq)]
pub enum FillLength {
    /// This many source frames, or as many as fit.
    Source(u32),
    /// As many as the whole gap has.
    Sequence,
}

/// A list of numbers, as of items in the order of their tracks.
pub type Numbers = Listed<u32>;

impl PartialEq for Numbers {
    ghost eq = { λ a b. bytes_eq a b };

    ghost laws = { partial_equiv_from_equiv nat_list_eq_equiv };

    /// Whether both have the same numbers in the same order.
    fn eq(&self, other: &Self) -> bool {
        self.as_slice() == other.as_slice()
    }
}

impl Eq for Numbers {
    ghost laws = { nat_list_eq_equiv };
}

/// Puts a new item over [at, at + len). Where the track is shorter than `at` it grows by dark frames up to it.
#[derive(Clone, Copy, Debug, PartialEq, Eq)]
pub struct Overwrite {
    pub track: u32,
    pub at: u32,
    pub what: What,
    pub from: u32,
    pub len: u32,
    pub keep: bool,
}

/// Puts a new item at `at`, and moves what is from there on later, on all named tracks.
#[derive(Clone, Copy, Debug, PartialEq, Eq)]
pub struct Insert {
    pub tracks: u32,
    pub track: u32,
    pub at: u32,
    pub what: What,
    pub from: u32,
    pub len: u32,
    pub keep: bool,
}

/// Leaves a gap in place of an item.
#[derive(Clone, Copy, Debug, PartialEq, Eq)]
pub struct Remove {
    pub track: u32,
    pub item: u32,
    pub keep: bool,
}

/// Takes an item out, and moves what is after it earlier, on all named tracks.
#[derive(Clone, Copy, Debug, PartialEq, Eq)]
pub struct Extract {
    pub tracks: u32,
    pub track: u32,
    pub item: u32,
    pub keep: bool,
}

/// Cuts the item at a place in two.
#[derive(Clone, Copy, Debug, PartialEq, Eq)]
pub struct Slice {
    pub track: u32,
    pub at: u32,
    pub keep: bool,
}

/// Puts a new item at the start of the gap that holds `at`.
#[derive(Clone, Copy, Debug, PartialEq, Eq)]
pub struct Fill {
    pub track: u32,
    pub at: u32,
    pub what: What,
    pub from: u32,
    pub length: FillLength,
    pub keep: bool,
}

/// Moves an end of an item and nothing else.
#[derive(Clone, Copy, Debug, PartialEq, Eq)]
pub struct Trim {
    pub track: u32,
    pub item: u32,
    pub end: End,
    pub by: i32,
}

/// Moves the source frames of an item, and of the items linked to it on the named tracks.
#[derive(Clone, Copy, Debug, PartialEq, Eq)]
pub struct Slip {
    pub tracks: u32,
    pub track: u32,
    pub item: u32,
    pub by: i32,
}

/// Moves an end of an item and all that is after it, on all named tracks.
#[derive(Clone, Copy, Debug, PartialEq, Eq)]
pub struct Ripple {
    pub tracks: u32,
    pub track: u32,
    pub item: u32,
    pub end: End,
    pub by: i32,
}

/// Moves a cut: what is before it gets longer and what is after it shorter, or the other way round.
#[derive(Clone, Copy, Debug, PartialEq, Eq)]
pub struct Roll {
    pub track: u32,
    pub at: u32,
    pub by: i32,
}

/// Moves an item between its neighbours, of which one grows and the other gives way.
#[derive(Clone, Copy, Debug, PartialEq, Eq)]
pub struct Slide {
    pub tracks: u32,
    pub track: u32,
    pub item: u32,
    pub by: i32,
}

/// Puts a dissolve at a cut, from `a` frames before it to `b` frames after it.
#[derive(Clone, Copy, Debug, PartialEq, Eq)]
pub struct Dissolve {
    pub track: u32,
    pub at: u32,
    pub a: u32,
    pub b: u32,
}

/// Takes away the dissolve at a cut.
#[derive(Clone, Copy, Debug, PartialEq, Eq)]
pub struct Undissolve {
    pub track: u32,
    pub at: u32,
}

/// Links items, one on each named track, in the order of the tracks. The name differs from a cell's `Link`.
#[derive(Drop, PartialEq, Eq)]
pub struct Link3 {
    pub tracks: u32,
    pub items: Numbers,
}

/// Takes the link from an item.
#[derive(Clone, Copy, Debug, PartialEq, Eq)]
pub struct Unlink {
    pub track: u32,
    pub item: u32,
}
