// What is put in place of the items and gaps at the ends of a range: what is left of them, and the new items.
ghost use Rattle.std.specs.Prelude.{◌≡◌, ◌+◌, ◌-◌, ◌<◌, ◌≤◌, ◌++◌, IfOk, OnOk};
ghost use Rattle.frame_meaning.specs.Cells.{same_number};
ghost use Rattle.edit_splice.specs.Parts.{after_views, back_views, begins_by, end_index, first_index, front_views, kept_before, kept_behind, parts_between, renumbered_view, reaches_past, split_between};

use crate::seams::{ItemAt, Seams};
use composables::{ItemView, Memory};
use frame_meaning::{Mark, same_item};
use std::alloc::Global;

/// What stands in place of the items and gaps at the ends of the range [x, y), where the later part of an item that is
/// split takes the number `fresh`.
pub fn parts_between(
    alloc: Global,
    seams: &Seams,
    x: u32,
    y: u32,
    keep: bool,
    items: &[ItemView],
    fresh: u32,
) -> Result<Vec<ItemView>, Memory>
    requires left { begins_by x seams.now.left }
    requires right { reaches_past y seams.now.right }
    ensures { IfOk result
        (λ parts. parts.items ≡ parts_between keep seams.now x y items.now fresh) }
{
    let split = split_between(seams.left, seams.right);
    let mut parts = Vec::with_capacity(alloc, items.len().saturating_add(3))?;
    push_front(&mut parts, seams.left, x, keep)?;
    parts.extend_from_slice(items)?;
    push_back(&mut parts, seams.right, y, split, fresh)?;
    push_after(&mut parts, seams.right, seams.after, y, keep)?;
    Ok(parts)
}

/// The index of the first item or gap that is replaced: that of the one before the range, or 0.
pub fn first_index(left: Option<ItemAt>) -> u32
    ensures { result ≡ first_index left }
{
    match left {
        Some(held) => held.index,
        None => 0,
    }
}

/// The index after the last that is replaced, where the track has `count` items and gaps.
pub fn end_index(seams: &Seams, count: u32) -> u32
    requires { end_index seams.now count ≤ count }
    ensures { result ≡ end_index seams.now count }
{
    match (seams.right, seams.after) {
        (Some(held), Some(_)) => held.index + 2,
        (Some(held), None) => held.index + 1,
        (None, _) => count,
    }
}

/// The number of the item that stands on both sides, if one item does.
pub fn split_between(left: Option<ItemAt>, right: Option<ItemAt>) -> Option<u32>
    ensures { result ≡ split_between left right }
{
    let left = left?;
    let right = right?;
    if same_item(left.view.item, right.view.item) {
        right.view.item
    } else {
        None
    }
}

// Adds what the item or gap at x has before x, if there is one, with its dissolve as far as that is kept.
fn push_front(
    parts: &mut Vec<ItemView>,
    left: Option<ItemAt>,
    x: u32,
    keep: bool,
) -> Result<(), Memory>
    requires { begins_by x left }
    ensures { OnOk result (parts.new.items ≡ parts.old.items ++ front_views keep left x) }
{
    match left {
        Some(held) => {
            let len = x - held.from;
            let mark = mark_before(keep, len, held.view.mark);
            parts.push(ItemView {
                len,
                mark,
                ..held.view
            })?;
        }
        None => {}
    }
    Ok(())
}

// What is kept of a dissolve whose cut stands so many frames before the range.
fn mark_before(keep: bool, frames: u32, mark: Option<Mark>) -> Option<Mark>
    ensures { result ≡ kept_before keep frames mark }
{
    match mark {
        Some(m) if keep => Some(Mark {
            b: m.b.min(frames),
            ..m
        }),
        Some(m) if m.b <= frames => Some(m),
        _ => None,
    }
}

// Adds what the item or gap at y has from y on, if there is one, without a dissolve at the seam.
fn push_back(
    parts: &mut Vec<ItemView>,
    right: Option<ItemAt>,
    y: u32,
    split: Option<u32>,
    fresh: u32,
) -> Result<(), Memory>
    requires { reaches_past y right }
    ensures { OnOk result (parts.new.items ≡ parts.old.items ++ back_views right y split fresh) }
{
    match right {
        Some(held) => parts.push(renumbered(&held.view.later(y - held.from), split, fresh))?,
        None => {}
    }
    Ok(())
}

/// An item or gap, with the number `fresh` if it is the one that is split.
pub fn renumbered(view: &ItemView, split: Option<u32>, fresh: u32) -> ItemView
    ensures { result ≡ renumbered_view split fresh view.now }
{
    match split {
        Some(_) if same_item(view.item, split) => ItemView {
            item: Some(fresh),
            ..*view
        },
        _ => *view,
    }
}

// Adds the item or gap after the one at y, if there is one, with its dissolve as far as that is kept.
fn push_after(
    parts: &mut Vec<ItemView>,
    right: Option<ItemAt>,
    after: Option<ItemView>,
    y: u32,
    keep: bool,
) -> Result<(), Memory>
    requires { reaches_past y right }
    ensures { OnOk result (parts.new.items ≡ parts.old.items ++ after_views keep right after y) }
{
    match (right, after) {
        (Some(held), Some(view)) => {
            let mark = mark_behind(keep, held.view.len - (y - held.from), view.mark);
            parts.push(ItemView { mark, ..view })?;
        }
        _ => {}
    }
    Ok(())
}

// What is kept of a dissolve whose cut stands so many frames after the range.
fn mark_behind(keep: bool, frames: u32, mark: Option<Mark>) -> Option<Mark>
    ensures { result ≡ kept_behind keep frames mark }
{
    match mark {
        Some(m) if 0 < frames && keep => Some(Mark {
            a: m.a.min(frames),
            ..m
        }),
        Some(m) if 0 < frames && m.a <= frames => Some(m),
        _ => None,
    }
}
