// A page: up to 64 items behind a pointer with several owners. No page changes once it is made.
ghost use Rattle.std.specs.Prelude.{◌≡◌, ◌+◌, ◌<◌, ◌≤◌, ◌^◌, ◌++◌, ◌∷◌, length, sum_by, slice_set, false, All, IfOk, IfSome};

use crate::held::{Held, row_has};
use crate::marks::{Marks, marks_of};
use crate::{Spanned, Wanted};
use out_of_memory::Memory;
use std::alloc::Global;
use std::marker::Model;
use std::sync::Arc;

/// At most this many items are in a page.
pub(crate) const MOST_ITEMS: usize = 64;

/// A page. Contracts see its items.
#[derive(Drop)]
pub struct Page<T: Spanned + Copy> {
    held: Arc<Held<T>>,
    count: u32,
    span: u32,
    marks: Marks,
}

impl<T: Spanned + Copy> Model for Page<T> {
    ghost use Rattle.std.specs.Prelude.{List};
    ghost use Rattle.std.specs.Arc.{arc_value};

    ghost Value = { List T };

    ghost view = { λ p. arc_value p.held };

    ghost use Rattle.item_pages.specs.Page.{IsPage};

    ghost invariant = { λ p. IsPage T.places T.numbered T.set
        (arc_value p.held) p.count p.span p.marks };
}

impl<T: Spanned + Copy> Page<T> {
    ghost use Rattle.item_pages.specs.Keys.{HoldsKeys};
    ghost use Rattle.item_pages.specs.Wants.{Unwanted};
    ghost use Rattle.item_pages.specs.declared.spans.Wanted.TheVariants.{Numbered};

    /// The page of these items, of which there are 1 to 64.
    pub fn of(alloc: Global, items: Vec<T>) -> Result<Page<T>, Memory>
        requires filled { 0 < length items.items }
        requires within { length items.items ≤ 64 }
        requires span { sum_by T.places items.items < 2 ^ 32 }
        ensures { IfOk result (λ p. p ≡ items.items) }
    {
        let count = items.len() as u32;
        let span = span_of(&items);
        let marks = marks_of(&items);
        let held = Held::of(alloc, items)?;
        let held = Arc::new(alloc, held)?;
        Ok(Page {
            held,
            count,
            span,
            marks,
        })
    }

    /// The page of a copy of these items.
    pub fn copied(alloc: Global, items: &[T]) -> Result<Page<T>, Memory>
        requires filled { 0 < length items.now }
        requires within { length items.now ≤ 64 }
        requires span { sum_by T.places items.now < 2 ^ 32 }
        ensures { IfOk result (λ p. p ≡ items.now) }
    {
        let items = Vec::from_slice(alloc, items)?;
        Page::of(alloc, items)
    }

    /// The page of its items and then those of another.
    pub fn joined(&self, alloc: Global, other: &Page<T>) -> Result<Page<T>, Memory>
        requires within { length self.now + length other.now ≤ 64 }
        requires span { sum_by T.places self.now + sum_by T.places other.now < 2 ^ 32 }
        ensures { IfOk result (λ p. p ≡ self.now ++ other.now) }
    {
        let count = (self.count() + other.count()) as usize;
        let mut items = Vec::with_capacity(alloc, count)?;
        items.extend_from_slice(self.items())?;
        items.extend_from_slice(other.items())?;
        Page::of(alloc, items)
    }

    /// The page with another item in place of the one with this index.
    pub fn with(&self, alloc: Global, index: usize, item: T) -> Result<Page<T>, Memory>
        requires within { index < length self.now }
        requires span { sum_by T.places (slice_set self.now index item) < 2 ^ 32 }
        ensures { IfOk result (λ p. p ≡ slice_set self.now index item) }
    {
        let _count = self.count();
        let mut items = Vec::from_slice(alloc, self.items())?;
        items[index] = item;
        Page::of(alloc, items)
    }

    /// The page once more, which shares its items.
    pub fn share(&self) -> Result<Page<T>, Memory>
        ensures { IfOk result (λ p. p ≡ self.now) }
    {
        Ok(Page {
            held: Arc::try_clone(&self.held)?,
            count: self.count,
            span: self.span,
            marks: self.marks,
        })
    }

    /// Its items, which are at most 64.
    pub fn items(&self) -> &[T]
        ensures items { result.now ≡ self.now }
        ensures within { length result.now ≤ 64 }
    {
        self.held.as_slice()
    }

    /// Its first item, and those after it.
    pub fn split_first(&self) -> (&T, &[T])
        ensures { self.now ≡ result.0.now ∷ result.1.now }
    {
        let _count = self.count();
        match self.items().split_first() {
            Some(parts) => parts,
            None => unreachable!(),
        }
    }

    /// How many items it has.
    pub fn count(&self) -> u32
        ensures count { result ≡ length self.now }
        ensures filled { 0 < result }
        ensures within { result ≤ 64 }
    {
        self.count
    }

    /// How many places its items span.
    pub fn span(&self) -> u32
        ensures span { result ≡ sum_by T.places self.now }
        ensures within { length self.now ≤ 64 }
    {
        self.span
    }

    /// Whether it may have an item that is wanted. False only where it has none.
    pub fn may_have(&self, wanted: Wanted) -> bool
        ensures { result ≡ false
            → All (λ item. Unwanted wanted (T.numbered item) (T.set item)) self.now }
    {
        self.marks.may_have(wanted)
    }

    /// The keys of its items, if they are known.
    pub fn row(&self) -> Option<&[u32]>
        ensures { IfSome result (λ row. HoldsKeys T.keyed row.now self.now) }
    {
        self.held.row()
    }

    /// Whether it may have an item with this key. False only where it has none.
    pub fn may_have_key(&self, key: u32) -> bool
        ensures { result ≡ false
            → All (λ item. Unwanted (Numbered key) (T.keyed item) (T.set item)) self.now }
    {
        match self.held.row() {
            Some(row) => row_has(row, key),
            None => true,
        }
    }
}

// How many places these items span.
fn span_of<T: Spanned>(items: &[T]) -> u32
    requires { sum_by T.places items.now < 2 ^ 32 }
    ensures { result ≡ sum_by T.places items.now }
{
    let mut span = 0;
    for item in items {
        span += item.span();
    }
    span
}
