// A track of items and gaps, which contracts see as its cells.
ghost use Rattle.std.specs.Prelude.{◌≡◌, false};
ghost use Rattle.composables.specs.Good.{AllUnlinked};
ghost use Rattle.composables.specs.Changes.{side_from};

use crate::cells::cells_in;
use crate::laying::{lay_between, push_item};
use crate::numbers::{number_past, number_past_all};
use crate::places::{find_item, find_place, first_from, last_before, view_at};
use crate::{ItemView, Memory, Place};
use frame_meaning::{Cell, Link, Mark, Side, What};
use item_pages::{Pages, Reader};
use std::alloc::Global;
use std::marker::Model;
use std::sync::ledger::Ledger;
use step_count::Steps;

/// A track. Contracts see its number, its cells, one for each record frame, and its next item and link numbers. It keeps
/// its allocator, and shares with its copies all pages of items and gaps that no change has touched.
#[derive(Drop)]
pub struct Track {
    alloc: Global,
    number: u32,
    items: Pages<ItemView>,
    next_item: u32,
    next_link: u32,
    linked: bool,
}

impl Model for Track {
    ghost use Rattle.composables.specs.TrackState.{TrackState};

    ghost Value = { TrackState };

    ghost use Rattle.composables.specs.TrackInside.{state_of, IsTrack};

    ghost view = { state_of };

    ghost invariant = { IsTrack };
}

impl Track {
    ghost use Rattle.std.specs.Prelude.{◌≡◌, ◌+◌, ◌<◌, ◌≤◌, ◌↔◌, [], false, length, drop, slice_get, vec_len, option_map, IfSome, IfOk, IsNone, OnOk, OnErr};
    ghost use Rattle.composables.specs.Good.{AllUnlinked};
    ghost use Rattle.composables.specs.Items.{items_of};
    ghost use Rattle.composables.specs.Sizes.{look_of, size_of};
    ghost use Rattle.composables.specs.TrackState.{pushed, replaced};
    ghost use Rattle.composables.specs.TrackFacts.{IsKept, Lacks, NumbersBelow};
    ghost use Rattle.composables.specs.Ranges.{range_of, HasNumber};
    ghost use Rattle.composables.specs.Changes.{changed_track, with_link, with_mark, with_source};
    ghost use Rattle.composables.specs.Places.{IsPlaceOf};
    ghost use Rattle.composables.specs.Joined.{AllFilled};

    /// A track without frames. It keeps the allocator, and takes no memory.
    pub fn empty(alloc: Global, number: u32) -> Track
        ensures { result ≡ record { number = number; cells = []; next_item = 0; next_link = 0 } }
    {
        Track {
            alloc,
            number,
            items: Pages::new(alloc),
            next_item: 0,
            next_link: 0,
            linked: false,
        }
    }

    /// The track's number in its room.
    pub fn number(&self) -> u32
        ensures { result ≡ self.now.number }
    {
        self.number
    }

    /// Its length in frames.
    pub fn length(&self) -> u32
        ensures value { result ≡ length self.now.cells }
        ensures kept { IsKept self.now }
    {
        self.items.total()
    }

    /// How many items and gaps it has.
    pub fn count(&self) -> u32
        ensures { result ≡ length (items_of self.now.cells) }
    {
        self.items.count()
    }

    /// The number that the next new item gets.
    pub fn next_item(&self) -> u32
        ensures { result ≡ self.now.next_item }
    {
        self.next_item
    }

    /// The number that the next new link with this home gets.
    pub fn next_link(&self) -> u32
        ensures { result ≡ self.now.next_link }
    {
        self.next_link
    }

    /// The item or gap with this index, or `None` where there is none.
    pub fn item(&self, index: u32) -> Option<ItemView>
        ensures { result ≡ slice_get (items_of self.now.cells) index }
    {
        self.items.get(index).copied()
    }

    // The items and gaps from an index on.
    pub(crate) fn items_from(&self, index: u32) -> Reader<'_, ItemView>
        ensures { result ≡ drop index (items_of self.now.cells) }
    {
        self.items.items_from(index)
    }

    /// Whether items of it may have a link: one was given to an item or came with one, be it gone again or not.
    pub fn has_links(&self) -> bool
        ensures none { result ≡ false → AllUnlinked (items_of self.now.cells) }
    {
        self.linked
    }

    /// All its items and gaps, in order.
    pub fn items(&self, alloc: Global) -> Result<Vec<ItemView>, Memory>
        ensures { IfOk result (λ all. all.items ≡ items_of self.now.cells) }
    {
        self.items.to_vec(alloc)
    }

    /// Where the item or gap that holds the place `at` stands, or `None` where the track has no such place.
    pub fn item_at<L: Ledger>(&self, at: u32, steps: &mut Steps<L>) -> Option<Place>
        ensures found { IfSome result (λ p. IsPlaceOf self.now.cells p) }
        ensures holds { IfSome result (λ p. (p.from ≤ at) × (at < p.to)) }
        ensures none { IsNone result ↔ (length self.now.cells ≤ at) }
        ensures least { steps.old + 1 ≤ steps.new }
        ensures look { steps.new ≤ steps.old + look_of self.now }
        ensures most { steps.new ≤ steps.old + size_of self.now }
    {
        find_place(&self.items, at, steps)
    }

    /// Where the item with this number stands, or `None` where the track has no such item.
    pub fn item_by_id<L: Ledger>(&self, item: u32, steps: &mut Steps<L>) -> Option<Place>
        ensures found { IfSome result (λ p. IsPlaceOf self.now.cells p) }
        ensures number { IfSome result (λ p. HasNumber (items_of self.now.cells) p.index item) }
        ensures range { range_of self.now.cells item ≡ option_map (λ p. (p.from, p.to)) result }
        ensures none { IsNone result ↔ Lacks item (items_of self.now.cells) }
        ensures least { steps.old + 1 ≤ steps.new }
        ensures most { steps.new ≤ steps.old + length (items_of self.now.cells) + 64 }
    {
        steps.tick();
        find_item(&self.items, item, steps)
    }

    /// An equal track, which shares all its items and gaps.
    pub fn copy(&self, alloc: Global) -> Result<Track, Memory>
        ensures { IfOk result (λ t. t ≡ self.now) }
    {
        let items = self.items.copy(alloc)?;
        Ok(Track {
            alloc,
            items,
            ..*self
        })
    }

    /// Adds an item or gap at the end, and raises the next item number past its number. Gaps that meet become one.
    pub fn push(&mut self, view: ItemView) -> Result<(), Memory>
        requires filled { 0 < view.len }
        requires number { IfSome view.item (λ i. i < 4294967295) }
        requires kept { IsKept (pushed self.old view) }
        ensures ok { OnOk result (self.new ≡ pushed self.old view) }
        ensures err { OnErr result (self.new ≡ self.old) }
    {
        push_item(&mut self.items, view)?;
        self.linked |= view.link.is_some();
        self.next_item = number_past(self.next_item, view.item);
        Ok(())
    }

    /// Puts these in place of the items and gaps from index `from` up to before `to`, and raises the next item number
    /// past each of theirs. Gaps that meet become one.
    pub fn replace<L: Ledger>(
        &mut self,
        from: u32,
        to: u32,
        items: Vec<ItemView>,
        steps: &mut Steps<L>,
    ) -> Result<(), Memory>
        requires order { from ≤ to }
        requires within { to ≤ length (items_of self.old.cells) }
        requires filled { AllFilled items.items }
        requires numbers { NumbersBelow 4294967295 items.items }
        requires kept { IsKept (replaced self.old from to items.items) }
        ensures ok { OnOk result (self.new ≡ replaced self.old from to items.items) }
        ensures err { OnErr result (self.new ≡ self.old) }
        ensures least { steps.old + 1 ≤ steps.new }
        ensures most { steps.new ≤ steps.old + look_of self.old + vec_len items }
    {
        steps.tick();
        let before = last_before(&self.items, from);
        let behind = first_from(&self.items, to);
        let laid = lay_between(self.alloc, before, &items, behind, steps)?;
        let first = from.saturating_sub(1);
        let last = to.saturating_add(1).min(self.items.count());
        self.items.replace(first, last, laid, steps)?;
        self.next_item = number_past_all(self.next_item, &items);
        self.linked |= any_linked(&items);
        Ok(())
    }

    /// Puts a dissolve at the cut before the item or gap with this index, or takes it away.
    pub fn set_mark(&mut self, alloc: Global, index: u32, mark: Option<Mark>) -> Result<(), Memory>
        requires within { index < length (items_of self.old.cells) }
        requires kept { IsKept (changed_track self.old index (with_mark mark)) }
        ensures ok { OnOk result (self.new ≡ changed_track self.old index (with_mark mark)) }
        ensures err { OnErr result (self.new ≡ self.old) }
    {
        let view = view_at(&self.items, index);
        self.items.set(alloc, index, ItemView { mark, ..view })?;
        Ok(())
    }

    /// Gives the item with this index a link, or takes it away.
    pub fn set_link(&mut self, alloc: Global, index: u32, link: Option<Link>) -> Result<(), Memory>
        requires within { index < length (items_of self.old.cells) }
        requires kept { IsKept (changed_track self.old index (with_link link)) }
        ensures ok { OnOk result (self.new ≡ changed_track self.old index (with_link link)) }
        ensures err { OnErr result (self.new ≡ self.old) }
    {
        let view = view_at(&self.items, index);
        self.items.set(alloc, index, ItemView { link, ..view })?;
        self.linked |= link.is_some();
        Ok(())
    }

    /// Moves the source frames of the item with this index, so that it shows them from this one on.
    pub fn set_source(&mut self, alloc: Global, index: u32, source: u32) -> Result<(), Memory>
        requires within { index < length (items_of self.old.cells) }
        requires kept { IsKept (changed_track self.old index (with_source source)) }
        ensures ok { OnOk result (self.new ≡ changed_track self.old index (with_source source)) }
        ensures err { OnErr result (self.new ≡ self.old) }
    {
        let view = view_at(&self.items, index);
        let first = side_from(view.first, source);
        self.items.set(alloc, index, ItemView { first, ..view })?;
        Ok(())
    }

    /// Raises the number that the next new link with this home gets.
    pub fn set_next_link(&mut self, next: u32)
        requires { self.old.next_link ≤ next }
        ensures { self.new ≡ record self.old { next_link = next } }
    {
        self.next_link = next;
    }

    /// Its cells, one for each frame. It takes memory and time for each frame, and serves tests.
    pub fn cells(&self, alloc: Global) -> Result<Vec<Cell>, Memory>
        ensures { IfOk result (λ all. all.items ≡ self.now.cells) }
    {
        let all = self.items.to_vec(alloc)?;
        cells_in(alloc, &all)
    }
}

// Whether one of these has a link.
fn any_linked(items: &[ItemView]) -> bool
    ensures { result ≡ false → AllUnlinked items.now }
{
    for view in items {
        if view.link.is_some() {
            return true;
        }
    }
    false
}

// What a side shows whose source frames begin at this one.
fn side_from(side: Side<What>, source: u32) -> Side<What>
    ensures { result ≡ side_from side source }
{
    match side {
        Side::Dark => Side::Dark,
        Side::Pic { what, .. } => Side::Pic { what, source },
    }
}
