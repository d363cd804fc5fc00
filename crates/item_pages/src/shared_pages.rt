// Pages behind a pointer that copies share. A change is done in place where nobody else has them, and else on a list of
// its own, which shares the pages that stay.
ghost use Rattle.std.specs.Prelude.{◌≡◌, ◌+◌, ◌<◌, ◌^◌, ◌++◌, length, sum_by, slice_set, IfOk, OnOk, OnErr};
ghost use Rattle.item_pages.specs.Packing.{items_of, Packed, Begins};

use crate::Spanned;
use crate::packing::{push_page, shared};
use crate::page::Page;
use out_of_memory::Memory;
use std::alloc::Global;
use std::marker::Model;
use std::sync::Arc;

/// Pages in memory that copies share. Contracts see the items of each.
#[derive(Drop)]
pub struct SharedPages<T: Spanned + Copy> {
    all: Arc<Vec<Page<T>>>,
}

impl<T: Spanned + Copy> Model for SharedPages<T> {
    ghost use Rattle.std.specs.Prelude.{List};
    ghost use Rattle.std.specs.Arc.{arc_value};

    ghost Value = { List (List T) };

    ghost view = { λ p. (arc_value p.all).items };
}

impl<T: Spanned + Copy> SharedPages<T> {
    /// These pages.
    pub fn of(alloc: Global, all: Vec<Page<T>>) -> Result<SharedPages<T>, Memory>
        ensures { IfOk result (λ p. p ≡ all.items) }
    {
        let all = Arc::new(alloc, all)?;
        Ok(SharedPages { all })
    }

    /// The pages, in order.
    pub fn as_slice(&self) -> &[Page<T>]
        ensures { result.now ≡ self.now }
    {
        self.all.as_slice()
    }

    /// The pages once more, in the same memory.
    pub fn share(&self) -> Result<SharedPages<T>, Memory>
        ensures { IfOk result (λ p. p ≡ self.now) }
    {
        let all = Arc::try_clone(&self.all)?;
        Ok(SharedPages { all })
    }

    /// Puts a page in place of the one with this index.
    pub fn set(&mut self, alloc: Global, index: usize, page: Page<T>) -> Result<(), Memory>
        requires { index < length self.old }
        ensures ok { OnOk result (self.new ≡ slice_set self.old index page) }
        ensures err { OnErr result (self.new ≡ self.old) }
    {
        match Arc::get_mut(&mut self.all) {
            Some(own) => {
                own[index] = page;
                return Ok(());
            }
            None => {}
        }
        let mut all = shared(alloc, self.as_slice())?;
        all[index] = page;
        self.all = Arc::new(alloc, all)?;
        Ok(())
    }

    /// Puts a page after the others. Where it fits in one with the last of them, the two become one.
    pub fn push(&mut self, alloc: Global, page: Page<T>) -> Result<(), Memory>
        requires packed { Packed self.old }
        requires span { sum_by T.places (items_of self.old) + sum_by T.places page < 2 ^ 32 }
        ensures items { OnOk result (items_of self.new ≡ items_of self.old ++ page) }
        ensures packed { OnOk result (Packed self.new) }
        ensures begins { OnOk result (Begins self.old self.new) }
        ensures err { OnErr result (self.new ≡ self.old) }
    {
        match Arc::get_mut(&mut self.all) {
            Some(own) => return push_page(alloc, own, page),
            None => {}
        }
        let mut all = shared(alloc, self.as_slice())?;
        push_page(alloc, &mut all, page)?;
        self.all = Arc::new(alloc, all)?;
        Ok(())
    }
}
