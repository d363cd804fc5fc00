// What is shown of an item or gap, in three parts.
ghost use Rattle.std.specs.Prelude.{◌≡◌, ◌+◌, ◌-◌, ◌<◌, ◌≤◌, ◌^◌, ◌++◌, List, OnOk};
ghost use Rattle.frame_meaning.specs.declared.cells.What.{What};
ghost use Rattle.frame_meaning.specs.declared.frames.Frame.{Frame};
ghost use Rattle.frame_meaning.specs.Render.{frame_of};
ghost use Rattle.composables.specs.TrackFacts.{Holds, left_reach, right_reach};
ghost use Rattle.dissolves.specs.Pieces.{Reaches, SideReaches, len_of, run_frames};
ghost use Rattle.dissolves.specs.Parts.{Between, HasFront, HoldsBefore, MarkIsNumbered, SideHasFront, head_frames, item_frames, mark_of, own_frames, tail_frames};
ghost use Rattle.composables.specs.Views.{earlier_side};
ghost use Rattle.dissolves.specs.Walk.{Walked};

use crate::pieces::{add_part, side_later};
use composables::ItemView;
use frame_meaning::{Frame, Memory, Run, Side, What};

// A run of no frames.
const NOTHING: Run<What> = Run {
    frame: Frame::Dark,
    len: 0,
};

/// Adds what is shown in the places [a, b) of an item or gap that begins at the place `from`, where `before` and
/// `after` stand beside it, if anything does.
pub fn add_item(
    all: &mut Vec<Run<What>>,
    before: Option<ItemView>,
    view: ItemView,
    after: Option<ItemView>,
    from: u32,
    a: u32,
    b: u32,
) -> Result<(), Memory>
    requires order { a ≤ b }
    requires between { Between before view after }
    requires places { from + view.len < 2 ^ 32 }
    requires room { len_of all.old.items ≤ from }
    ensures walked { OnOk result ((rest frames : List (Frame What))
        → Walked all.old.items from a b (item_frames before view after ++ rest) frames
        → Walked all.new.items (from + view.len) a b rest frames) }
{
    let head = head_of(before, &view);
    let tail = tail_of(&view, after);
    let own = own_of(&view, head.len, tail.len);
    if head.len + tail.len == 0 {
        add_part(all, own, from, a, b)?;
        return Ok(());
    }
    add_part(all, head, from, a, b)?;
    add_part(all, own, from + head.len, a, b)?;
    add_part(all, tail, from + head.len + own.len, a, b)?;
    Ok(())
}

// The part of the dissolve at its head that lies after the cut.
fn head_of(before: Option<ItemView>, view: &ItemView) -> Run<What>
    requires holds_before { HoldsBefore before view.now.mark }
    requires reaches { SideReaches view.now.first (right_reach view.now.mark) }
    requires mark { MarkIsNumbered view.now.mark }
    ensures frames { run_frames result ≡ head_frames before view.now }
    ensures len { result.len ≡ right_reach view.now.mark }
    ensures reaches { Reaches result.frame result.len }
{
    match (before, view.mark) {
        (Some(left), Some(mark)) => {
            if mark.b == 0 {
                return NOTHING;
            }
            Run {
                frame: Frame::Mix {
                    left: side_later(left.first, left.len),
                    right: view.first,
                    num: mark.a + 1,
                    den: mark.a + mark.b + 1,
                },
                len: mark.b,
            }
        }
        _ => NOTHING,
    }
}

// The frames that it shows alone: all but this many at its head and its tail.
fn own_of(view: &ItemView, head: u32, tail: u32) -> Run<What>
    requires within { head + tail ≤ view.now.len }
    requires reaches { Reaches (frame_of view.now.first) view.now.len }
    ensures frames { run_frames result ≡ own_frames view.now head tail }
    ensures len { result.len ≡ view.now.len - head - tail }
    ensures reaches { Reaches result.frame result.len }
{
    let len = view.len - head - tail;
    if len == 0 {
        return NOTHING;
    }
    let frame = match side_later(view.first, head) {
        Side::Dark => Frame::Dark,
        Side::Pic { what, source } => Frame::Pic { what, source },
    };
    Run { frame, len }
}

// The part of the dissolve at its tail that lies before the cut.
fn tail_of(view: &ItemView, after: Option<ItemView>) -> Run<What>
    requires holds { Holds view.now (mark_of after) }
    requires front { HasFront after }
    requires mark { MarkIsNumbered (mark_of after) }
    ensures frames { run_frames result ≡ tail_frames view.now after }
    ensures len { result.len ≡ left_reach (mark_of after) }
    ensures reaches { Reaches result.frame result.len }
{
    let Some(right) = after else {
        return NOTHING;
    };
    let Some(mark) = right.mark else {
        return NOTHING;
    };
    if mark.a == 0 {
        return NOTHING;
    }
    Run {
        frame: Frame::Mix {
            left: side_later(view.first, view.len - mark.a),
            right: side_earlier(right.first, mark.a),
            num: 1,
            den: mark.a + mark.b + 1,
        },
        len: mark.a,
    }
}

// The side so many source frames earlier; dark stays dark.
fn side_earlier(side: Side<What>, n: u32) -> Side<What>
    requires { SideHasFront side n }
    ensures { result ≡ earlier_side side n }
{
    match side {
        Side::Dark => Side::Dark,
        Side::Pic { what, source } => Side::Pic {
            what,
            source: source - n,
        },
    }
}
