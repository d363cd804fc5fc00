// The list of pages, in blocks behind a pointer that copies of it share. A change is done in place where nobody else has
// the list, and else on a list of its own, which shares the blocks.
ghost use Rattle.std.specs.Prelude.{◌≡◌, ◌<◌, ◌≤◌, ◌++◌, [], length, take, drop, slice_set, IfOk, OnOk, OnErr};
ghost use Rattle.item_pages.specs.Items.{Fits};
ghost use Rattle.item_pages.specs.Packing.{items_of, Packed};

use crate::Spanned;
use crate::block::Block;
use crate::blocks::{push_to_blocks, put_blocks, set_page, shared_blocks};
use crate::cutting::recut;
use crate::page::Page;
use out_of_memory::Memory;
use std::alloc::Global;
use std::marker::Model;
use std::sync::Arc;

// Blocks that are there, in memory that copies of the list share.
#[derive(Drop)]
struct Rows<T: Spanned + Copy> {
    all: Arc<Vec<Block<T>>>,
}

impl<T: Spanned + Copy> Model for Rows<T> {
    ghost use Rattle.std.specs.Prelude.{List};
    ghost use Rattle.std.specs.Arc.{arc_value};
    ghost use Rattle.item_pages.specs.Packing.{items_of};

    ghost Value = { List (List T) };

    ghost view = { λ r. items_of (arc_value r.all).items };
}

impl<T: Spanned + Copy> Rows<T> {
    // The list of the pages of these blocks.
    fn of(alloc: Global, all: Vec<Block<T>>) -> Result<Rows<T>, Memory>
        ensures { IfOk result (λ r. r ≡ items_of all.items) }
    {
        let all = Arc::new(alloc, all)?;
        Ok(Rows { all })
    }

    // The blocks, in order.
    fn blocks(&self) -> &[Block<T>]
        ensures { items_of result.now ≡ self.now }
    {
        self.all.as_slice()
    }

    // The list once more, which shares its memory.
    fn share(&self) -> Result<Rows<T>, Memory>
        ensures { IfOk result (λ r. r ≡ self.now) }
    {
        let all = Arc::try_clone(&self.all)?;
        Ok(Rows { all })
    }

    // Puts pages in place of those from index `start` up to before `end`, in a list of its own where copies share it.
    fn put_between(
        &mut self,
        alloc: Global,
        start: usize,
        end: usize,
        fresh: &[Page<T>],
    ) -> Result<(), Memory>
        requires order { start ≤ end }
        requires within { end ≤ length self.old }
        requires fits { Fits T.places
            (items_of (take start self.old ++ (fresh.now ++ drop end self.old))) }
        ensures ok { OnOk result (self.new
            ≡ take start self.old ++ (fresh.now ++ drop end self.old)) }
        ensures err { OnErr result (self.new ≡ self.old) }
    {
        let cut = recut(alloc, self.all.as_slice(), start, end, fresh)?;
        match Arc::get_mut(&mut self.all) {
            Some(own) => return put_blocks(own, cut.before, cut.behind, cut.fresh),
            None => {}
        }
        let mut all = shared_blocks(alloc, self.all.as_slice())?;
        put_blocks(&mut all, cut.before, cut.behind, cut.fresh)?;
        self.all = Arc::new(alloc, all)?;
        Ok(())
    }

    // Puts a page in place of the one with this index, in a list of its own where copies share it.
    fn set(&mut self, alloc: Global, index: usize, page: Page<T>) -> Result<(), Memory>
        requires within { index < length self.old }
        requires fits { Fits T.places (items_of (slice_set self.old index page)) }
        ensures ok { OnOk result (self.new ≡ slice_set self.old index page) }
        ensures err { OnErr result (self.new ≡ self.old) }
    {
        match Arc::get_mut(&mut self.all) {
            Some(own) => return set_page(alloc, own, index, page),
            None => {}
        }
        let mut all = shared_blocks(alloc, self.all.as_slice())?;
        set_page(alloc, &mut all, index, page)?;
        self.all = Arc::new(alloc, all)?;
        Ok(())
    }

    // Puts a page after the others, or into the last one where both fit in one, in a list of its
    // own where copies share it.
    fn push(&mut self, alloc: Global, page: Page<T>) -> Result<(), Memory>
        requires packed { Packed self.old }
        requires fits { Fits T.places (items_of self.old ++ page) }
        ensures items { OnOk result (items_of self.new ≡ items_of self.old ++ page) }
        ensures packed { OnOk result (Packed self.new) }
        ensures err { OnErr result (self.new ≡ self.old) }
    {
        match Arc::get_mut(&mut self.all) {
            Some(own) => return push_to_blocks(alloc, own, page),
            None => {}
        }
        let mut all = shared_blocks(alloc, self.all.as_slice())?;
        push_to_blocks(alloc, &mut all, page)?;
        self.all = Arc::new(alloc, all)?;
        Ok(())
    }
}

/// Pages. Contracts see the items of each.
#[derive(Drop)]
pub struct PageList<T: Spanned + Copy> {
    rows: Option<Rows<T>>,
}

impl<T: Spanned + Copy> Model for PageList<T> {
    ghost use Rattle.std.specs.Prelude.{List, [], unwrap_or};

    ghost Value = { List (List T) };

    ghost view = { λ p. unwrap_or p.rows [] };
}

impl<T: Spanned + Copy> PageList<T> {
    /// No pages. It takes no memory.
    pub fn new() -> PageList<T>
        ensures { result ≡ [] }
    {
        PageList { rows: None }
    }

    /// The blocks that have the pages, in order.
    pub fn blocks(&self) -> &[Block<T>]
        ensures { items_of result.now ≡ self.now }
    {
        match &self.rows {
            Some(rows) => rows.blocks(),
            None => &[],
        }
    }

    /// The list once more, which shares its memory.
    pub fn share(&self) -> Result<PageList<T>, Memory>
        ensures { IfOk result (λ p. p ≡ self.now) }
    {
        match &self.rows {
            Some(rows) => {
                let rows = rows.share()?;
                Ok(PageList { rows: Some(rows) })
            }
            None => Ok(PageList { rows: None }),
        }
    }

    /// Puts pages in place of those from index `start` up to before `end`, shared.
    pub fn put_between(
        &mut self,
        alloc: Global,
        start: usize,
        end: usize,
        fresh: &[Page<T>],
    ) -> Result<(), Memory>
        requires order { start ≤ end }
        requires within { end ≤ length self.old }
        requires fits { Fits T.places
            (items_of (take start self.old ++ (fresh.now ++ drop end self.old))) }
        ensures ok { OnOk result (self.new
            ≡ take start self.old ++ (fresh.now ++ drop end self.old)) }
        ensures err { OnErr result (self.new ≡ self.old) }
    {
        match &mut self.rows {
            Some(rows) => return rows.put_between(alloc, start, end, fresh),
            None => {}
        }
        let mut rows = Rows::of(alloc, Vec::new(alloc))?;
        rows.put_between(alloc, start, end, fresh)?;
        self.rows = Some(rows);
        Ok(())
    }

    /// Puts a page in place of the one with this index.
    pub fn set(&mut self, alloc: Global, index: usize, page: Page<T>) -> Result<(), Memory>
        requires within { index < length self.old }
        requires fits { Fits T.places (items_of (slice_set self.old index page)) }
        ensures ok { OnOk result (self.new ≡ slice_set self.old index page) }
        ensures err { OnErr result (self.new ≡ self.old) }
    {
        match &mut self.rows {
            Some(rows) => rows.set(alloc, index, page),
            None => unreachable!(),
        }
    }

    /// Puts a page after the others. Where it fits in one with the last of them, the two become one.
    pub fn push(&mut self, alloc: Global, page: Page<T>) -> Result<(), Memory>
        requires packed { Packed self.old }
        requires fits { Fits T.places (items_of self.old ++ page) }
        ensures items { OnOk result (items_of self.new ≡ items_of self.old ++ page) }
        ensures packed { OnOk result (Packed self.new) }
        ensures err { OnErr result (self.new ≡ self.old) }
    {
        match &mut self.rows {
            Some(rows) => return rows.push(alloc, page),
            None => {}
        }
        let mut rows = Rows::of(alloc, Vec::new(alloc))?;
        rows.push(alloc, page)?;
        self.rows = Some(rows);
        Ok(())
    }
}
