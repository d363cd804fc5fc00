// Pages put one after another, so that no two neighbours fit in one.
ghost use Rattle.std.specs.Prelude.{◌≡◌, ◌+◌, ◌<◌, ◌≤◌, ◌^◌, ◌++◌, ◌∷◌, [], length, sum_by, true, false, IfOk, OnOk, OnErr};
ghost use Rattle.item_pages.specs.Items.{Fits};
ghost use Rattle.item_pages.specs.Packing.{items_of, Packed, Begins, Ends};

use crate::Spanned;
use crate::page::{MOST_ITEMS, Page};
use out_of_memory::Memory;
use std::alloc::Global;

/// These pages in a list of its own, which shares each of them.
pub fn shared<T: Spanned + Copy>(alloc: Global, pages: &[Page<T>]) -> Result<Vec<Page<T>>, Memory>
    ensures { IfOk result (λ all. all.items ≡ pages.now) }
{
    let mut all = Vec::with_capacity(alloc, pages.len())?;
    for page in pages {
        all.push(page.share()?)?;
    }
    Ok(all)
}

/// The pages of these items between two neighbours, which join them where they fit.
pub fn pages_between<T: Spanned + Copy>(
    alloc: Global,
    near: &[Page<T>],
    items: &[T],
    next: &[Page<T>],
) -> Result<Vec<Page<T>>, Memory>
    requires alone { length near.now ≤ 1 }
    requires fits { Fits T.places ((items_of near.now ++ items.now) ++ items_of next.now) }
    ensures items { IfOk result (λ all. items_of all.items
        ≡ (items_of near.now ++ items.now) ++ items_of next.now) }
    ensures packed { IfOk result (λ all. Packed all.items) }
    ensures begins { IfOk result (λ all. Begins near.now all.items) }
    ensures ends { IfOk result (λ all. Ends next.now all.items) }
{
    let mut all = shared(alloc, near)?;
    push_items(alloc, &mut all, items)?;
    push_pages(alloc, &mut all, next)?;
    Ok(all)
}

// Puts these items after those of other pages, in pages that are made for them.
fn push_items<T: Spanned + Copy>(
    alloc: Global,
    pages: &mut Vec<Page<T>>,
    items: &[T],
) -> Result<(), Memory>
    requires packed { Packed pages.old.items }
    requires fits { Fits T.places (items_of pages.old.items ++ items.now) }
    ensures items { OnOk result (items_of pages.new.items ≡ items_of pages.old.items ++ items.now) }
    ensures packed { OnOk result (Packed pages.new.items) }
    ensures begins { OnOk result (Begins pages.old.items pages.new.items) }
{
    let mut left = items;
    while !left.is_empty() {
        let (filled, rest) = left.split_at(left.len().min(MOST_ITEMS));
        push_page(alloc, pages, Page::copied(alloc, filled)?)?;
        left = rest;
    }
    Ok(())
}

// Puts these pages after others, shared.
fn push_pages<T: Spanned + Copy>(
    alloc: Global,
    pages: &mut Vec<Page<T>>,
    others: &[Page<T>],
) -> Result<(), Memory>
    requires packed { Packed pages.old.items }
    requires fits { Fits T.places (items_of pages.old.items ++ items_of others.now) }
    ensures items { OnOk result (items_of pages.new.items
        ≡ items_of pages.old.items ++ items_of others.now) }
    ensures packed { OnOk result (Packed pages.new.items) }
    ensures begins { OnOk result (Begins pages.old.items pages.new.items) }
    ensures ends { OnOk result (Ends others.now pages.new.items) }
{
    for other in others {
        push_page(alloc, pages, other.share()?)?;
    }
    Ok(())
}

/// Puts a page after others. Where it fits in one with the last of them, the two become one.
pub fn push_page<T: Spanned + Copy>(
    alloc: Global,
    pages: &mut Vec<Page<T>>,
    page: Page<T>,
) -> Result<(), Memory>
    requires packed { Packed pages.old.items }
    requires span { sum_by T.places (items_of pages.old.items) + sum_by T.places page < 2 ^ 32 }
    ensures items { OnOk result (items_of pages.new.items ≡ items_of pages.old.items ++ page) }
    ensures packed { OnOk result (Packed pages.new.items) }
    ensures begins { OnOk result (Begins pages.old.items pages.new.items) }
    ensures ends { OnOk result (Ends (page ∷ []) pages.new.items) }
    ensures err { OnErr result (pages.new.items ≡ pages.old.items) }
{
    let count = pages.len();
    if count > 0 && fit_in_one(&pages[count - 1], &page) {
        let joined = pages[count - 1].joined(alloc, &page)?;
        pages[count - 1] = joined;
        return Ok(());
    }
    pages.push(page)?;
    Ok(())
}

/// Whether the items of both fit in one page.
pub fn fit_in_one<T: Spanned + Copy>(page: &Page<T>, next: &Page<T>) -> bool
    ensures yes { result ≡ true → length page.now + length next.now ≤ 64 }
    ensures no { result ≡ false → 64 < length page.now + length next.now }
{
    (page.count() + next.count()) as usize <= MOST_ITEMS
}

/// How many items these pages have. Each page has one at least.
pub fn count_of_pages<T: Spanned + Copy>(pages: &[Page<T>]) -> u32
    requires { length (items_of pages.now) < 2 ^ 32 }
    ensures count { result ≡ length (items_of pages.now) }
    ensures enough { length pages.now ≤ result }
{
    let mut count = 0;
    for page in pages {
        count += page.count();
    }
    count
}

/// How many places the items of these pages span.
pub fn span_of_pages<T: Spanned + Copy>(pages: &[Page<T>]) -> u32
    requires { sum_by T.places (items_of pages.now) < 2 ^ 32 }
    ensures { result ≡ sum_by T.places (items_of pages.now) }
{
    let mut span = 0;
    for page in pages {
        span += page.span();
    }
    span
}
