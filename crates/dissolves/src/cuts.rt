// Cuts, and the room that the items or gaps at their sides have for a dissolve.
ghost use Rattle.std.specs.Prelude.{◌≡◌, ◌+◌, ◌<◌, ◌≤◌, ◌^◌, [], ◌∷◌, false, length, IfSome, IsNone, IsTrue, None};
ghost use Rattle.composables.specs.Items.{items_of};
ghost use Rattle.composables.specs.TrackFacts.{left_reach, right_reach};
ghost use Rattle.dissolves.specs.Cuts.{IsCutAt, IsNoCut, has_frames, is_nest, room_left, room_refusal, room_right};
ghost use Rattle.dissolves.specs.Parts.{mark_of};
ghost use Rattle.dissolves.specs.Pieces.{SideReaches};

use crate::shown::view_before;
use composables::{ItemView, Refusal, Table, Track, Which};
use frame_meaning::{Mark, Side, What};
use std::sync::ledger::Ledger;
use step_count::Steps;

/// A cut: the index of the item or gap after it, those before it and after it, and the mark at the latter's end.
#[derive(Clone, Copy, Debug, PartialEq, Eq)]
pub struct Cut {
    pub index: u32,
    pub left: ItemView,
    pub right: ItemView,
    pub tail: Option<Mark>,
}

/// The cut at a place, if there is one. Where there is none, no mark stands either.
pub fn cut_at<L: Ledger>(track: &Track, at: u32, steps: &mut Steps<L>) -> Option<Cut>
    ensures cut { IfSome result (λ c. IsCutAt track.now.cells at c) }
    ensures none { IsNone result → IsNoCut track.now.cells at }
    ensures least { steps.old + 1 ≤ steps.new }
    ensures most { steps.new ≤ steps.old + length (items_of track.now.cells) + 64 }
{
    if at >= track.length() {
        steps.tick();
        return None;
    }
    let place = track.item_at(at, steps)?;
    if place.from < at {
        return None;
    }
    let left = view_before(track, place.index)?;
    let right = track.item(place.index)?;
    let tail = mark_before(track.item(place.index + 1));
    Some(Cut {
        index: place.index,
        left,
        right,
        tail,
    })
}

// The dissolve at the head of an item or gap, if there are both.
fn mark_before(view: Option<ItemView>) -> Option<Mark>
    ensures { result ≡ mark_of view }
{
    view?.mark
}

/// Why the sides of a cut have no room for a dissolve, if one has none.
pub fn room_refusal(table: &Table, cut: Cut, mark: Mark) -> Option<Refusal>
    ensures refusal { result ≡ room_refusal table.now cut.left cut.right cut.tail mark }
    ensures source { IsNone result → SideReaches cut.left.first (cut.left.len + mark.b) }
{
    if !has_room_left(table, cut.left, mark) {
        return Some(Refusal::DissolveRoom(Which::Left));
    }
    if !has_room_right(table, cut.right, cut.tail, mark) {
        return Some(Refusal::DissolveRoom(Which::Right));
    }
    None
}

// Whether an item or gap has room for a dissolve at its end.
fn has_room_left(table: &Table, view: ItemView, mark: Mark) -> bool
    ensures room { result ≡ room_left table.now view mark }
    ensures source { IsTrue result → SideReaches view.first (view.len + mark.b) }
{
    let reach = u64::from(after_cut(view.mark)) + u64::from(mark.a);
    let len = u64::from(view.len) + u64::from(mark.b);
    !is_nest(view.first) && reach <= u64::from(view.len) && has_frames(table, view.first, 0, len)
}

// Whether an item or gap has room for a dissolve at its head, where this mark stands at its end.
fn has_room_right(table: &Table, view: ItemView, tail: Option<Mark>, mark: Mark) -> bool
    ensures { result ≡ room_right table.now view tail mark }
{
    let reach = u64::from(mark.b) + u64::from(before_cut(tail));
    let len = u64::from(view.len);
    !is_nest(view.first) && reach <= len && has_frames(table, view.first, mark.a, len)
}

/// How many frames a dissolve has after its cut; none where there is no dissolve.
pub fn after_cut(mark: Option<Mark>) -> u32
    ensures { result ≡ right_reach mark }
{
    match mark {
        Some(mark) => mark.b,
        None => 0,
    }
}

/// How many frames a dissolve has before its cut; none where there is no dissolve.
pub fn before_cut(mark: Option<Mark>) -> u32
    ensures { result ≡ left_reach mark }
{
    match mark {
        Some(mark) => mark.a,
        None => 0,
    }
}

// Whether a side shows a nest, which takes no part in a dissolve.
fn is_nest(side: Side<What>) -> bool
    ensures { result ≡ is_nest side }
{
    match side {
        Side::Dark => false,
        Side::Pic {
            what: What::Media(_),
            source: _,
        } => false,
        Side::Pic {
            what: What::Nest(_),
            source: _,
        } => true,
    }
}

// Whether what a side shows has these source frames: `len` from its first on, and `before` ahead of it.
fn has_frames(table: &Table, side: Side<What>, before: u32, len: u64) -> bool
    requires { len < 2 ^ 33 }
    ensures frames { result ≡ has_frames table.now side before len }
    ensures source { IsTrue result → SideReaches side len }
{
    match side {
        Side::Dark => true,
        Side::Pic { what, source } => match table.bounds(what) {
            Some((from, to)) => {
                u64::from(from) + u64::from(before) <= u64::from(source)
                    && u64::from(source) + len <= u64::from(to)
            }
            None => false,
        },
    }
}
