// Transitions: where one stands, its offsets, and whether the dissolve has room.
ghost use Rattle.std.specs.Prelude.{◌≡◌, ◌≤◌, ◌<◌, ◌^◌, IfSome};
ghost use Rattle.json_tree.specs.View.{tree_of};
ghost use Rattle.otio_tracks.specs.Times.{rate_pair};
ghost use Rattle.otio_tracks.specs.Transitions.{offsets_read, transition_read, right_reach, reaches_back, reaches_on, has_room, joins, has_frames, mark_between, dissolve_between};

use crate::faults::{DocCode, Fault};
use crate::parts::Part;
use crate::times::frame;
use crate::values::{fault_at, needed, text};
use frame_meaning::{Mark, Side};
use json_tree::Json;
use ratio_time::Rate;

/// A transition that waits for the item after it: its place, what its members say, and whether another transition
/// came in between.
#[derive(Clone, Copy, Debug, PartialEq, Eq)]
pub struct Waiting {
    pub at: u32,
    pub offsets: Result<Mark, Fault>,
    pub crowded: bool,
}

// How far a transition reaches to both sides of its cut, or O9 where an offset is below 0.
#[tactic(auto, unfolding(crate::specs::Transitions::offsets_read))]
fn offsets(rate: &Rate, json: &Json) -> Result<Mark, Fault>
    ensures { result ≡ offsets_read (rate_pair rate.now) (tree_of json.now) }
{
    let before = needed(json, "in_offset")?;
    let a = frame(rate, before)?;
    let after = needed(json, "out_offset")?;
    let b = frame(rate, after)?;
    if a < 0 {
        return Err(fault_at(DocCode::O9, before));
    }
    if b < 0 {
        return Err(fault_at(DocCode::O9, after));
    }
    Ok(Mark {
        a: a as u32,
        b: b as u32,
    })
}

/// How far a transition reaches to both sides of its cut, where it is a dissolve; any other kind is O3.
#[tactic(auto, unfolding(crate::specs::Transitions::transition_read))]
pub(crate) fn transition(rate: &Rate, json: &Json) -> Result<Mark, Fault>
    ensures { result ≡ transition_read (rate_pair rate.now) (tree_of json.now) }
{
    let kind = needed(json, "transition_type")?;
    if text(kind)? != "SMPTE_Dissolve" {
        return Err(fault_at(DocCode::O3, kind));
    }
    offsets(rate, json)
}

// How many frames of an item the dissolve at its head takes after the cut.
fn right_reach(mark: Option<Mark>) -> u64
    ensures value { result ≡ right_reach mark }
    ensures short { result < 2 ^ 32 }
{
    match mark {
        Some(mark) => u64::from(mark.b),
        None => 0,
    }
}

// Whether the item on the right of a cut has so many source frames before its first.
fn reaches_back(part: &Part, frames: u32) -> bool
    ensures { result ≡ reaches_back part.now frames }
{
    match part.first {
        Side::Dark => true,
        Side::Pic { source, .. } => {
            u64::from(part.from) + u64::from(frames) <= u64::from(source)
        }
    }
}

// Whether the item on the left of a cut has so many source frames after its last.
fn reaches_on(part: &Part, frames: u32) -> bool
    requires { part.now.len < 2 ^ 63 }
    ensures { result ≡ reaches_on part.now frames }
{
    match part.first {
        Side::Dark => true,
        Side::Pic { source, .. } => {
            u64::from(source) + part.len + u64::from(frames) <= u64::from(part.to)
        }
    }
}

// Whether a dissolve has room between two items: among their own frames, and past the cut in the ranges of their
// things.
fn has_room(left: &Part, right: &Part, mark: Mark) -> bool
    requires { left.now.len < 2 ^ 63 }
    ensures { result ≡ has_room left.now right.now mark }
{
    right_reach(left.mark) + u64::from(mark.a) <= left.len
        && u64::from(mark.b) <= right.len
        && reaches_on(left, mark.b)
        && reaches_back(right, mark.a)
}

/// Whether an item goes on from the one kept last, as a gap does from a gap.
pub(crate) fn joins(last: Option<Part>, next: &Part) -> bool
    ensures { result ≡ joins last next.now }
{
    match last {
        Some(last) => last.is_gap() && next.is_gap(),
        None => false,
    }
}

// Whether an item that was read has frames: its own, or, of a gap, those of the gap that it goes on from.
fn has_frames(last: Option<Part>, before: &Part) -> bool
    ensures { result ≡ has_frames last before.now }
{
    before.len > 0 || joins(last, before)
}

// The dissolve of these offsets between the item kept last and the next one, if there are any offsets.
fn mark_between(
    last: Option<Part>,
    before: &Part,
    next: &Part,
    mark: Mark,
    at: u32,
) -> Result<Option<Mark>, Fault>
    requires { IfSome last (λ p. p.len < 2 ^ 63) }
    ensures { result ≡ mark_between last before.now next.now mark at }
{
    if mark.a == 0 && mark.b == 0 {
        return Ok(None);
    }
    if has_frames(last, before) && next.len > 0 {
        match last {
            Some(left) => {
                if has_room(&left, next, mark) {
                    return Ok(Some(mark));
                }
            }
            None => {}
        }
    }
    Err(Fault {
        code: DocCode::O9,
        at,
    })
}

/// The dissolve of a transition between the items before and after it: O8 where one of them is missing, O15 next to a
/// nest, and O9 where it has no room.
#[tactic(auto, unfolding(crate::specs::Transitions::dissolve_between))]
pub(crate) fn dissolve_between(
    last: Option<Part>,
    before: Option<Part>,
    waiting: &Waiting,
    next: &Part,
) -> Result<Option<Mark>, Fault>
    requires { IfSome last (λ p. p.len < 2 ^ 63) }
    ensures { result ≡ dissolve_between last before waiting.now next.now }
{
    let place = Fault {
        code: DocCode::O8,
        at: waiting.at,
    };
    let before = match before {
        Some(before) => before,
        None => return Err(place),
    };
    if waiting.crowded || (before.is_gap() && next.is_gap()) {
        return Err(place);
    }
    if before.is_nest() || next.is_nest() {
        return Err(Fault {
            code: DocCode::O15,
            at: waiting.at,
        });
    }
    mark_between(last, &before, next, waiting.offsets?, waiting.at)
}
