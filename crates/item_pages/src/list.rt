// A list in pages, which contracts see as its items.
ghost use Rattle.std.specs.Prelude.{◌≡◌, ◌+◌, ◌-◌, ◌<◌, ◌≤◌, ◌^◌, ◌/◌, ◌++◌, ◌∷◌, ◌↔◌, [], length, sum_by, slice_get, slice_set, take, drop, IfOk, IfSome, IsNone, OnOk, OnErr};
ghost use Rattle.item_pages.specs.Packing.{items_of};

use crate::blocks::{page_of, pages_behind, span_of_blocks};
use crate::finding::find_in_blocks;
use crate::packing::pages_between;
use crate::page::Page;
use crate::page_list::PageList;
use crate::spots::{around, behind, spot_of};
use crate::{Found, Reader, Spanned};
use out_of_memory::Memory;
use std::alloc::Global;
use std::marker::Model;
use std::sync::ledger::Ledger;
use step_count::Steps;

/// A list in pages. Contracts see its items, in order. It keeps its allocator, for what it adds.
#[derive(Drop)]
pub struct Pages<T: Spanned + Copy> {
    alloc: Global,
    pages: PageList<T>,
    count: u32,
    total: u32,
}

impl<T: Spanned + Copy> Model for Pages<T> {
    ghost use Rattle.std.specs.Prelude.{List};
    ghost use Rattle.item_pages.specs.Packing.{items_of, IsList};

    ghost Value = { List T };

    ghost view = { λ p. items_of p.pages };

    ghost invariant = { λ p. IsList T.places p.pages p.count p.total };
}

impl<T: Spanned + Copy> Pages<T> {
    ghost use Rattle.std.specs.Option.{option_copied};
    ghost use Rattle.item_pages.specs.Items.{Fits, HoldsPlace, replaced};
    ghost use Rattle.item_pages.specs.Packing.{items_of};

    /// A list without items. It takes no memory.
    pub fn new(alloc: Global) -> Pages<T>
        ensures { result ≡ [] }
    {
        Pages {
            alloc,
            pages: PageList::new(),
            count: 0,
            total: 0,
        }
    }

    /// How many items it has.
    pub fn count(&self) -> u32
        ensures { result ≡ length self.now }
    {
        self.count
    }

    /// How many places its items span.
    pub fn total(&self) -> u32
        ensures value { result ≡ sum_by T.places self.now }
        ensures fits { Fits T.places self.now }
    {
        self.total
    }

    /// The item with this index, or `None` where there is none.
    pub fn get(&self, index: u32) -> Option<&T>
        ensures { option_copied result ≡ slice_get self.now index }
    {
        let (piece, _) = behind(self.pages.blocks(), index);
        piece.first()
    }

    /// The items from this index on, to be read in order.
    pub fn items_from(&self, index: u32) -> Reader<'_, T>
        ensures { result ≡ drop index self.now }
    {
        let blocks = self.pages.blocks();
        if index == 0 {
            return Reader::of(&[], &[], blocks);
        }
        let (piece, next) = behind(blocks, index);
        let (pages, rest) = pages_behind(blocks, next);
        Reader::of(piece, pages, rest)
    }

    /// The item that holds the place `at`, or `None` where the list has no such place.
    pub fn find<L: Ledger>(&self, at: u32, steps: &mut Steps<L>) -> Option<Found>
        ensures found { IfSome result (λ f. HoldsPlace T.places self.now at f) }
        ensures none { IsNone result ↔ (sum_by T.places self.now ≤ at) }
        ensures least { steps.old + 1 ≤ steps.new }
        ensures most { steps.new ≤ steps.old + length self.now / 32 + 65 }
        ensures few { steps.new ≤ steps.old + length self.now + 64 }
    {
        steps.tick();
        let blocks = self.pages.blocks();
        find_in_blocks(blocks, at, steps)
    }

    /// Puts an item in place of the one with this index, which spans as many places.
    pub fn set(&mut self, alloc: Global, index: u32, item: T) -> Result<(), Memory>
        requires within { index < length self.old }
        requires span { IfSome (slice_get self.old index) (λ old. T.places old ≡ T.places item) }
        ensures ok { OnOk result (self.new ≡ slice_set self.old index item) }
        ensures err { OnErr result (self.new ≡ self.old) }
    {
        let _ = self.total(); // its clause says that they fit
        self.put(alloc, index, item)
    }

    /// Puts an item in place of the last one, which may span more or fewer places.
    pub fn set_last(&mut self, item: T) -> Result<(), Memory>
        requires filled { 0 < length self.old }
        requires fits { Fits T.places (slice_set self.old (length self.old - 1) item) }
        ensures ok { OnOk result (self.new ≡ slice_set self.old (length self.old - 1) item) }
        ensures err { OnErr result (self.new ≡ self.old) }
    {
        self.put(self.alloc, self.count - 1, item)
    }

    // Puts an item in place of the one with this index, which may span more or fewer places.
    fn put(&mut self, alloc: Global, index: u32, item: T) -> Result<(), Memory>
        requires within { index < length self.old }
        requires fits { Fits T.places (slice_set self.old index item) }
        ensures ok { OnOk result (self.new ≡ slice_set self.old index item) }
        ensures err { OnErr result (self.new ≡ self.old) }
    {
        let blocks = self.pages.blocks();
        let spot = spot_of(blocks, index);
        let held = page_of(blocks, spot.part);
        let span = held.span();
        let page = held.with(alloc, spot.within, item)?;
        let total = self.total - span + page.span();
        self.pages.set(alloc, spot.part, page)?;
        self.total = total;
        Ok(())
    }

    /// An equal list, which shares each page until one of both changes it.
    pub fn copy(&self, alloc: Global) -> Result<Pages<T>, Memory>
        ensures { IfOk result (λ p. p ≡ self.now) }
    {
        Ok(Pages {
            alloc,
            pages: self.pages.share()?,
            count: self.count,
            total: self.total,
        })
    }

    /// Its items in one piece, copied.
    pub fn to_vec(&self, alloc: Global) -> Result<Vec<T>, Memory>
        ensures { IfOk result (λ all. all.items ≡ self.now) }
    {
        let mut all = Vec::with_capacity(alloc, self.count as usize)?;
        for block in self.pages.blocks() {
            push_items(&mut all, block.pages())?;
        }
        Ok(all)
    }

    /// Adds an item at the end.
    pub fn push(&mut self, item: T) -> Result<(), Memory>
        requires { Fits T.places (self.old ++ item ∷ []) }
        ensures ok { OnOk result (self.new ≡ self.old ++ item ∷ []) }
        ensures err { OnErr result (self.new ≡ self.old) }
    {
        let mut one = Vec::with_capacity(self.alloc, 1)?;
        one.push(item)?;
        let page = Page::of(self.alloc, one)?;
        self.push_page(page)
    }

    /// Puts these in place of the items from index `from` up to before `to`. Pages wholly before or after are kept
    /// where they are, in the blocks that they are in; the pages of the blocks that it touches are put into new blocks. It counts one step, and none for
    /// pages that are passed or moved, nor for items that are copied into new pages.
    pub fn replace<L: Ledger>(
        &mut self,
        from: u32,
        to: u32,
        items: Vec<T>,
        steps: &mut Steps<L>,
    ) -> Result<(), Memory>
        requires order { from ≤ to }
        requires within { to ≤ length self.old }
        requires fits { Fits T.places (replaced self.old from to items.items) }
        ensures ok { OnOk result (self.new ≡ replaced self.old from to items.items) }
        ensures err { OnErr result (self.new ≡ self.old) }
        ensures least { steps.old + 1 ≤ steps.new }
        ensures most { steps.new ≤ steps.old + length self.old / 32 + 3 }
    {
        steps.tick();
        let blocks = self.pages.blocks();
        let parts = around(blocks, from, to);
        let middle = in_one_piece(self.alloc, parts.front, &items, parts.back)?;
        let fresh = pages_between(self.alloc, parts.near, &middle, parts.next)?;
        let (start, end) = (parts.start, parts.end);
        self.pages.put_between(self.alloc, start, end, &fresh)?;
        let changed = self.pages.blocks();
        let total = span_of_blocks(changed);
        self.count = self.count - (to - from) + items.len() as u32;
        self.total = total;
        Ok(())
    }

    // Puts a page after the others.
    fn push_page(&mut self, page: Page<T>) -> Result<(), Memory>
        requires { Fits T.places (self.old ++ page) }
        ensures ok { OnOk result (self.new ≡ self.old ++ page) }
        ensures err { OnErr result (self.new ≡ self.old) }
    {
        let (count, span) = (page.count(), page.span());
        self.pages.push(self.alloc, page)?;
        self.count += count;
        self.total += span;
        Ok(())
    }
}

// Puts the items of these pages after others.
fn push_items<T: Spanned + Copy>(all: &mut Vec<T>, pages: &[Page<T>]) -> Result<(), Memory>
    ensures { OnOk result (all.new.items ≡ all.old.items ++ items_of pages.now) }
{
    for page in pages {
        all.extend_from_slice(page.items())?;
    }
    Ok(())
}

// These items in one piece, one run after another.
fn in_one_piece<T: Copy>(
    alloc: Global,
    front: &[T],
    items: &[T],
    back: &[T],
) -> Result<Vec<T>, Memory>
    requires { length front.now + length items.now + length back.now < 2 ^ 33 }
    ensures { IfOk result (λ all. all.items ≡ front.now ++ (items.now ++ back.now)) }
{
    let mut all = Vec::with_capacity(alloc, front.len() + items.len() + back.len())?;
    all.extend_from_slice(front)?;
    all.extend_from_slice(items)?;
    all.extend_from_slice(back)?;
    Ok(all)
}
