// One shot as the items and gaps of a track.
ghost use Rattle.std.specs.Prelude.{◌≡◌, ◌++◌, ◌<◌, OnOk, Some};
ghost use Rattle.composables.specs.Views.{gap_views};
ghost use Rattle.list_import.specs.TrackItems.{cut_of, dissolve_views, number_behind, number_past, shot_views, view_of};
ghost use Rattle.list_import.specs.ShotFacts.{IsSomeShot};

use crate::{Memory, Shot};
use composables::ItemView;
use frame_meaning::{Mark, Side, What};

// The number of the item after one that shows a side.
fn number_past(number: u32, side: Side<What>) -> u32
    requires { number < 4294967295 }
    ensures { result ≡ number_past number side }
{
    match side {
        Side::Dark => number,
        Side::Pic { .. } => number + 1,
    }
}

// An item with this number that shows a side, or, where that is dark, a gap.
fn view_of(number: u32, side: Side<What>, len: u32, mark: Option<Mark>) -> ItemView
    ensures { result ≡ view_of number side len mark }
{
    let item = match side {
        Side::Dark => None,
        Side::Pic { .. } => Some(number),
    };
    ItemView {
        item,
        first: side,
        len,
        mark,
        link: None,
    }
}

// The cut of a dissolve: where it ends, or a frame before where its shot ends with it.
fn cut_of(frames: u32, len: u32) -> u32
    requires { 0 < frames }
    ensures { result ≡ cut_of frames len }
{
    if frames < len { frames } else { frames - 1 }
}

// The items of a dissolve: the outgoing side up to the cut, and from there the incoming one going on, with the mark of
// the dissolve's frames before the cut and after it.
fn dissolve_views(number: u32, left: Side<What>, shot: &Shot) -> [ItemView; 2]
    requires shot { IsSomeShot shot.now }
    requires left { shot.now.from ≡ Some left }
    requires number { number < 4294967294 }
    ensures { result ≡ dissolve_views number left shot.now.frames shot.now.side shot.now.len
        (cut_of shot.now.frames shot.now.len) }
{
    let cut = cut_of(shot.frames, shot.len);
    let mark = Mark {
        a: cut,
        b: shot.frames - cut,
    };
    [
        view_of(number, left, cut, None),
        view_of(
            number_past(number, left),
            shot.side.later(cut),
            shot.len - cut,
            Some(mark),
        ),
    ]
}

/// Adds dark frames after the items and gaps so far, if there are any.
pub fn push_gap(views: &mut Vec<ItemView>, len: u32) -> Result<(), Memory>
    ensures { OnOk result (views.new.items ≡ views.old.items ++ gap_views len) }
{
    if len == 0 {
        return Ok(());
    }
    views.push(ItemView::gap(len))?;
    Ok(())
}

/// Adds a shot after the items and gaps so far. Its first item has this number.
pub fn push_shot(views: &mut Vec<ItemView>, number: u32, shot: &Shot) -> Result<(), Memory>
    requires shot { IsSomeShot shot.now }
    requires number { number < 4294967294 }
    ensures { OnOk result (views.new.items ≡ views.old.items ++ shot_views number shot.now) }
{
    match shot.from {
        None => views.push(view_of(number, shot.side, shot.len, None))?,
        Some(left) => views.extend_from_slice(&dissolve_views(number, left, shot))?,
    }
    Ok(())
}

/// The number of the item after those of a shot.
pub fn number_behind(number: u32, shot: &Shot) -> u32
    requires { number < 4294967294 }
    ensures { result ≡ number_behind number shot.now }
{
    match shot.from {
        None => number_past(number, shot.side),
        Some(left) => number_past(number_past(number, left), shot.side),
    }
}
