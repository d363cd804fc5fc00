// Rows of items and gaps: those that are cut, and those that are put in.
ghost use Rattle.std.specs.Prelude.{◌≡◌, ◌<◌, IfOk};
ghost use Rattle.composables.specs.Joined.{frames_in};
ghost use Rattle.composables.specs.TrackFacts.{NumbersBelow};
ghost use Rattle.composables.specs.Views.{clip_view, gap_view};
ghost use Rattle.edit_splice.specs.NewItems.{AreNew};

use composables::{ItemView, Memory};
use frame_meaning::{Link, Mark, Side, What};
use std::alloc::Global;

/// A gap of so many frames.
pub fn dark(len: u32) -> ItemView
    ensures { result ≡ gap_view len }
{
    ItemView {
        item: None,
        first: Side::Dark,
        len,
        mark: None,
        link: None,
    }
}

/// An item of media 0 from a source frame on.
pub fn item(number: u32, source: u32, len: u32) -> ItemView
    ensures { result ≡ clip_view number (What.Media 0) source len }
{
    ItemView {
        item: Some(number),
        first: Side::Pic {
            what: What::Media(0),
            source,
        },
        len,
        mark: None,
        link: None,
    }
}

/// An item or gap with a dissolve at the cut before it, of `a` frames before the cut and `b` after it.
pub fn marked(view: ItemView, a: u32, b: u32) -> ItemView
    ensures { result ≡ record view { mark = Some (record { a = a; b = b }) } }
{
    ItemView {
        mark: Some(Mark { a, b }),
        ..view
    }
}

/// A gap, two items, a gap and two items, 14 frames in all, with a dissolve at each cut but one.
pub fn base(alloc: Global) -> Result<Vec<ItemView>, Memory>
    ensures new { IfOk result (λ views. AreNew 0 views.items) }
    ensures numbers { IfOk result (λ views. NumbersBelow 100 views.items) }
    ensures frames { IfOk result (λ views. frames_in views.items < 100) }
{
    let views = [
        dark(2),
        marked(item(0, 50, 4), 1, 2),
        marked(item(1, 100, 3), 2, 1),
        marked(dark(2), 1, 1),
        item(2, 7, 2),
        marked(item(3, 7, 1), 0, 1),
    ];
    Ok(Vec::from_slice(alloc, &views)?)
}

/// Three linked items, 8 frames in all, whose dissolves leave them no frame of their own.
pub fn linked(alloc: Global) -> Result<Vec<ItemView>, Memory>
    ensures new { IfOk result (λ views. AreNew 0 views.items) }
    ensures numbers { IfOk result (λ views. NumbersBelow 100 views.items) }
    ensures frames { IfOk result (λ views. frames_in views.items < 100) }
{
    let link = Some(Link {
        home: 0,
        number: 3,
        tracks: 3,
    });
    let views = [
        ItemView {
            link,
            ..item(2, 80, 2)
        },
        ItemView {
            link,
            ..marked(item(0, 90, 4), 2, 2)
        },
        ItemView {
            link,
            ..marked(item(1, 70, 2), 2, 2)
        },
    ];
    Ok(Vec::from_slice(alloc, &views)?)
}

/// Items of four and seven frames, a gap of four and an item of three, 18 frames in all, with a dissolve at each cut
/// that has frames for most of what stands beside it.
pub fn wide(alloc: Global) -> Result<Vec<ItemView>, Memory>
    ensures new { IfOk result (λ views. AreNew 0 views.items) }
    ensures numbers { IfOk result (λ views. NumbersBelow 100 views.items) }
    ensures frames { IfOk result (λ views. frames_in views.items < 100) }
{
    let views = [
        item(0, 50, 4),
        marked(item(1, 200, 7), 4, 4),
        marked(dark(4), 3, 0),
        marked(item(2, 300, 3), 4, 3),
    ];
    Ok(Vec::from_slice(alloc, &views)?)
}

/// New items: none.
pub fn nothing(alloc: Global) -> Vec<ItemView>
    ensures new { AreNew 4 result.items }
    ensures numbers { NumbersBelow 100 result.items }
    ensures frames { frames_in result.items < 100 }
{
    Vec::new(alloc)
}

/// New items: one.
pub fn one(alloc: Global) -> Result<Vec<ItemView>, Memory>
    ensures new { IfOk result (λ views. AreNew 4 views.items) }
    ensures numbers { IfOk result (λ views. NumbersBelow 100 views.items) }
    ensures frames { IfOk result (λ views. frames_in views.items < 100) }
{
    Ok(Vec::from_slice(alloc, &[item(4, 500, 2)])?)
}

/// New items: a gap, an item with a high number, and one with a dissolve at the cut between them.
pub fn three(alloc: Global) -> Result<Vec<ItemView>, Memory>
    ensures new { IfOk result (λ views. AreNew 4 views.items) }
    ensures numbers { IfOk result (λ views. NumbersBelow 100 views.items) }
    ensures frames { IfOk result (λ views. frames_in views.items < 100) }
{
    let views = [dark(1), item(9, 500, 1), marked(item(5, 700, 3), 1, 2)];
    Ok(Vec::from_slice(alloc, &views)?)
}
