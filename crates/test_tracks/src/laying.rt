// Tracks laid from items and gaps, and when there is one.
ghost use Rattle.std.specs.Prelude.{◌≡◌, ◌↔◌, ◌<◌, ◌≤◌, IfOk, IfSome, IsBitSet, IsNone, IsTrue, None, Some, false, slice_get};
ghost use Rattle.frame_meaning.specs.declared.cells.What.TheVariants.{Media};
ghost use Rattle.composables.specs.Changes.{with_link, with_mark};
ghost use Rattle.composables.specs.Good.{AllUnlinked, EachLiesIn, EachLinkOf, IsGood, IsLinkOf};
ghost use Rattle.composables.specs.Items.{items_of};
ghost use Rattle.composables.specs.Roomy.{IsRoomy};
ghost use Rattle.composables.specs.Joined.{frames_in};
ghost use Rattle.composables.specs.TrackFacts.{IsKept, first_mark, left_reach, right_reach};
ghost use Rattle.composables.specs.TrackState.{next_past_all};
ghost use Rattle.composables.specs.Views.{clip_view, gap_view};
ghost use Rattle.test_tracks.specs.Laid.{CanBeLaid, Follows, IsLaid, IsLinked, Laid, NoneIsLaid, NoneIsLinked, is_gap, mark_of, number_after};

use composables::{ItemView, MAX_FRAMES, MAX_ITEMS, Table, Track, has_track, holds};
use frame_meaning::{Link, Mark, Memory, What};
use std::alloc::Global;
use std::marker::Brand;
use std::sync::ledger::{Blank, Ledger};
use step_count::Steps;

/// An item that shows `len` frames of a media from the source frame `source` on.
pub fn clip(number: u32, media: u32, source: u32, len: u32) -> ItemView
    ensures { result ≡ clip_view number (Media media) source len }
{
    ItemView::clip(number, What::Media(media), source, len)
}

/// A gap of `len` frames.
pub fn gap(len: u32) -> ItemView
    ensures { result ≡ gap_view len }
{
    ItemView::gap(len)
}

/// An item or gap with a dissolve at the cut before it, from `a` frames before the cut to `b` frames after it.
pub fn dissolve(a: u32, b: u32, view: ItemView) -> ItemView
    ensures { result ≡ with_mark (Some (record { a = a; b = b })) view }
{
    ItemView {
        mark: Some(Mark { a, b }),
        ..view
    }
}

/// The track with this number that has these items and gaps, if there is one without links that is good in the table
/// and has next numbers of at most 2,147,483,648. The item numbers have to rise; `None` where they do not, or where there
/// is no such track.
pub fn laid_track(
    alloc: Global,
    table: &Table,
    number: u32,
    views: &[ItemView],
) -> Result<Option<Track>, Memory>
    ensures track { IfOk result (λ o. IfSome o (λ t. IsLaid table.now number views.now t)) }
    ensures none { IfOk result (λ o. IsNone o → NoneIsLaid table.now number views.now) }
{
    if !can_be_laid(views) {
        return Ok(None);
    }
    let items = Vec::from_slice(alloc, views)?;
    let track = laid::<Brand>(alloc, Blank::new(1), number, items)?;
    if is_bare(table, &track, views) {
        Ok(Some(track))
    } else {
        Ok(None)
    }
}

/// The track that `laid_track` gives, of items of which some may have links. Each link needs this track and its home
/// among its tracks; whether the items of one link have one offset is not asked.
pub fn linked_track(
    alloc: Global,
    table: &Table,
    number: u32,
    views: &[ItemView],
) -> Result<Option<Track>, Memory>
    ensures track { IfOk result (λ o. IfSome o (λ t. IsLinked table.now number views.now t)) }
    ensures none { IfOk result (λ o. IsNone o → NoneIsLinked table.now number views.now) }
{
    if !can_be_laid(views) {
        return Ok(None);
    }
    let items = Vec::from_slice(alloc, views)?;
    let track = laid::<Brand>(alloc, Blank::new(1), number, items)?;
    if is_good(table, &track, views) {
        Ok(Some(track))
    } else {
        Ok(None)
    }
}

/// An item with a link in place of the one that it has, or of none.
pub fn linked(link: Link, view: ItemView) -> ItemView
    ensures { result ≡ with_link (Some link) view }
{
    ItemView {
        link: Some(link),
        ..view
    }
}

// A track of these items and gaps, whose next numbers are past theirs.
fn laid<L: Ledger>(
    alloc: Global,
    blank: Blank,
    number: u32,
    items: Vec<ItemView>,
) -> Result<Track, Memory>
    requires blank { (blank.name ≡ L.name) × (blank.parts ≡ L.parts) × (0 < blank.parts) }
    requires laid { CanBeLaid items.items }
    ensures number { IfOk result (λ t. t.number ≡ number) }
    ensures items { IfOk result (λ t. items_of t.cells ≡ items.items) }
    ensures kept { IfOk result (λ t. IsKept t) }
    ensures next { IfOk result (λ t. t.next_item ≡ next_past_all 0 items.items) }
    ensures link { IfOk result (λ t. t.next_link ≡ 0) }
{
    let mut steps = Steps::<L>::new(blank);
    let mut track = Track::empty(alloc, number);
    track.replace(0, 0, items, &mut steps)?;
    Ok(track)
}

// Whether these can be the items and gaps of a track: laid one after another, not too long, and with
// no dissolve before the first.
fn can_be_laid(items: &[ItemView]) -> bool
    ensures { IsTrue result ↔ CanBeLaid items.now }
{
    are_laid(items) && are_short(items) && begin_unmarked(items)
}

// Whether each is as every item and gap is, with room for its dissolves; the item numbers rise; no two gaps meet.
fn are_laid(items: &[ItemView]) -> bool
    ensures { IsTrue result ↔ Laid 0 false items.now }
{
    let mut next = 0;
    let mut after_gap = false;
    for (index, view) in items.iter().enumerate() {
        if !holds(view, mark_at(items, index + 1)) {
            return false;
        }
        let Some(number) = number_behind(view.item, next, after_gap) else {
            return false;
        };
        next = number;
        after_gap = is_dark(view.item);
    }
    true
}

// Whether their frames together are a number of 32 bits, with one to spare.
fn are_short(items: &[ItemView]) -> bool
    ensures { IsTrue result ↔ (frames_in items.now ≤ 4294967294) }
{
    let mut left = 4_294_967_294;
    for view in items {
        if view.len > left {
            return false;
        }
        left -= view.len;
    }
    true
}

// Whether no dissolve stands before the first of them.
fn begin_unmarked(items: &[ItemView]) -> bool
    ensures { IsTrue result ↔ (first_mark items.now ≡ None) }
{
    match items.first() {
        Some(view) => view.mark.is_none(),
        None => true,
    }
}

// The dissolve before the item or gap with this index; none past the last.
fn mark_at(items: &[ItemView], index: usize) -> Option<Mark>
    ensures { result ≡ mark_of (slice_get items.now index) }
{
    match items.get(index) {
        Some(view) => view.mark,
        None => None,
    }
}

// How many frames before its cut a dissolve begins; 0 of none.
fn left_reach(mark: Option<Mark>) -> u32
    ensures { result ≡ left_reach mark }
{
    match mark {
        Some(mark) => mark.a,
        None => 0,
    }
}

// How many frames after its cut a dissolve ends; 0 of none.
fn right_reach(mark: Option<Mark>) -> u32
    ensures { result ≡ right_reach mark }
{
    match mark {
        Some(mark) => mark.b,
        None => 0,
    }
}

// Whether this is no item number, as of a gap.
fn is_dark(item: Option<u32>) -> bool
    ensures { result ≡ is_gap item }
{
    match item {
        Some(_) => false,
        None => true,
    }
}

// The least number that an item after this one may have; `None` where this one may not stand here: its number is below
// `next`, or it is a gap after a gap.
fn number_behind(item: Option<u32>, next: u32, after_gap: bool) -> Option<u32>
    ensures follows { IfSome result (λ _. Follows item next after_gap) }
    ensures none { IsNone result → Follows item next after_gap → ⊥ }
    ensures number { IfSome result (λ n. n ≡ number_after item next) }
{
    match item {
        Some(i) => {
            if i < next || i == 4_294_967_295 {
                return None;
            }
            Some(i + 1)
        }
        None => {
            if after_gap {
                return None;
            }
            Some(next)
        }
    }
}

// Whether a track of these is good in the table, and its next numbers leave room for an edit.
fn is_good(table: &Table, track: &Track, views: &[ItemView]) -> bool
    requires items { items_of track.now.cells ≡ views.now }
    requires link { track.now.next_link ≡ 0 }
    ensures { IsTrue result ↔ (IsGood table.now track.now × IsRoomy track.now) }
{
    track.length() <= MAX_FRAMES
        && track.count() <= MAX_ITEMS
        && track.next_item() <= 2_147_483_648
        && all_lie(table, views)
        && have_own_links(track.number(), views)
}

// Whether a track of these is good in the table, leaves room for an edit, and has no links.
fn is_bare(table: &Table, track: &Track, views: &[ItemView]) -> bool
    requires items { items_of track.now.cells ≡ views.now }
    requires link { track.now.next_link ≡ 0 }
    ensures { IsTrue result ↔ (IsGood table.now track.now × IsRoomy track.now
        × AllUnlinked (items_of track.now.cells)) }
{
    if !is_good(table, track, views) {
        return false;
    }
    are_unlinked(views)
}

// Whether each link has this track and its home among its tracks.
fn have_own_links(number: u32, views: &[ItemView]) -> bool
    ensures { IsTrue result ↔ EachLinkOf number views.now }
{
    for view in views {
        if !is_own_link(number, view.link) {
            return false;
        }
    }
    true
}

// Whether a link, if there is one, has this track and its home among its tracks.
fn is_own_link(number: u32, link: Option<Link>) -> bool
    ensures { IsTrue result ↔ IsLinkOf number link }
{
    match link {
        Some(l) => has_bit(l.tracks, number) && has_bit(l.tracks, l.home),
        None => true,
    }
}

// Whether a set of tracks has this one, which may be past the last.
fn has_bit(tracks: u32, track: u32) -> bool
    ensures { IsTrue result ↔ IsBitSet tracks track }
{
    track < 32 && has_track(tracks, track)
}

// Whether each item with its dissolves lies in the range of what it shows.
fn all_lie(table: &Table, views: &[ItemView]) -> bool
    ensures { IsTrue result ↔ EachLiesIn table.now views.now }
{
    for (index, view) in views.iter().enumerate() {
        let tail = mark_at(views, index + 1);
        if !table.lies_in(
            view.first,
            view.len,
            left_reach(view.mark),
            right_reach(tail),
        ) {
            return false;
        }
    }
    true
}

// Whether none of them has a link.
fn are_unlinked(views: &[ItemView]) -> bool
    ensures { IsTrue result ↔ AllUnlinked views.now }
{
    for view in views {
        if view.link.is_some() {
            return false;
        }
    }
    true
}
