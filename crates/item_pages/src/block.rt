// A block: some pages that follow one another, which are passed in one step.
ghost use Rattle.std.specs.Prelude.{◌≡◌, ◌<◌, ◌≤◌, ◌++◌, length, sum_by, slice_set, IfOk, OnOk, OnErr};
ghost use Rattle.item_pages.specs.Items.{Fits};
ghost use Rattle.item_pages.specs.Packing.{items_of, Packed, Begins};

use crate::Spanned;
use crate::packing::{count_of_pages, span_of_pages};
use crate::page::Page;
use crate::shared_pages::SharedPages;
use out_of_memory::Memory;
use std::alloc::Global;
use std::marker::Model;

/// About so many pages are in a block at most. A change copies those of a block or two.
pub(crate) const MOST_PAGES: usize = 32;

/// A block. Contracts see the items of each of its pages.
#[derive(Drop)]
pub struct Block<T: Spanned + Copy> {
    pages: SharedPages<T>,
    count: u32,
    span: u32,
}

impl<T: Spanned + Copy> Model for Block<T> {
    ghost use Rattle.std.specs.Prelude.{List};

    ghost Value = { List (List T) };

    ghost view = { λ b. b.pages };

    ghost use Rattle.item_pages.specs.Block.{IsBlock};

    ghost invariant = { λ b. IsBlock T.places b.pages b.count b.span };
}

impl<T: Spanned + Copy> Block<T> {
    /// The block of these pages, of which there is one at least.
    pub fn of(alloc: Global, pages: Vec<Page<T>>) -> Result<Block<T>, Memory>
        requires filled { 0 < length pages.items }
        requires fits { Fits T.places (items_of pages.items) }
        ensures { IfOk result (λ b. b ≡ pages.items) }
    {
        let count = count_of_pages(&pages);
        let span = span_of_pages(&pages);
        let pages = SharedPages::of(alloc, pages)?;
        Ok(Block { pages, count, span })
    }

    /// The block once more, which shares its pages.
    pub fn share(&self) -> Result<Block<T>, Memory>
        ensures { IfOk result (λ b. b ≡ self.now) }
    {
        Ok(Block {
            pages: self.pages.share()?,
            count: self.count,
            span: self.span,
        })
    }

    /// Its pages, of which there is one at least.
    pub fn pages(&self) -> &[Page<T>]
        ensures pages { result.now ≡ self.now }
        ensures filled { 0 < length result.now }
    {
        let _count = self.count;
        self.pages.as_slice()
    }

    /// How many items its pages have.
    pub fn count(&self) -> u32
        ensures count { result ≡ length (items_of self.now) }
        ensures enough { length self.now ≤ result }
        ensures filled { 0 < length self.now }
    {
        self.count
    }

    /// How many places its items span.
    pub fn span(&self) -> u32
        ensures { result ≡ sum_by T.places (items_of self.now) }
    {
        self.span
    }

    /// Puts a page in place of the one with this index.
    pub fn set(&mut self, alloc: Global, index: usize, page: Page<T>) -> Result<(), Memory>
        requires within { index < length self.old }
        requires fits { Fits T.places (items_of (slice_set self.old index page)) }
        ensures ok { OnOk result (self.new ≡ slice_set self.old index page) }
        ensures err { OnErr result (self.new ≡ self.old) }
    {
        self.pages.set(alloc, index, page)?;
        self.count = count_of_pages(self.pages.as_slice());
        self.span = span_of_pages(self.pages.as_slice());
        Ok(())
    }

    /// Puts a page after the others. Where it fits in one with the last of them, the two become one.
    pub fn push(&mut self, alloc: Global, page: Page<T>) -> Result<(), Memory>
        requires packed { Packed self.old }
        requires fits { Fits T.places (items_of self.old ++ page) }
        ensures items { OnOk result (items_of self.new ≡ items_of self.old ++ page) }
        ensures packed { OnOk result (Packed self.new) }
        ensures begins { OnOk result (Begins self.old self.new) }
        ensures err { OnErr result (self.new ≡ self.old) }
    {
        self.pages.push(alloc, page)?;
        self.count = count_of_pages(self.pages.as_slice());
        self.span = span_of_pages(self.pages.as_slice());
        Ok(())
    }
}
