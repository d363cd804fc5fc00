// Where an item stands among the pages of blocks: which page, and where in it.
ghost use Rattle.std.specs.Prelude.{◌≡◌, ◌+◌, ◌-◌, ◌<◌, ◌≤◌, ◌^◌, ◌++◌, length, take, drop};
ghost use Rattle.item_pages.specs.Packing.{items_of};
ghost use Rattle.item_pages.specs.Spots.{IsSpot, Surrounds};

use crate::Spanned;
use crate::block::Block;
use crate::blocks::{page_at, page_or_none};
use crate::page::Page;

/// The index of a page, and that of an item in it; or of a block, and that of a page in it.
#[derive(Clone, Copy)]
pub struct Spot {
    pub part: usize,
    pub within: usize,
}

/// Where the page with this index stands: its block, and where in it. Past the last page it is after the last block.
pub fn place_of<T: Spanned + Copy>(blocks: &[Block<T>], index: usize) -> Spot
    ensures { IsSpot blocks.now index result }
{
    let mut left = index;
    for (part, block) in blocks.iter().enumerate() {
        let pages = block.pages().len();
        if left < pages {
            return Spot { part, within: left };
        }
        left -= pages;
    }
    Spot {
        part: blocks.len(),
        within: left,
    }
}

/// Where the item with this index stands. Past the last item it is after the last page.
pub fn spot_of<T: Spanned + Copy>(blocks: &[Block<T>], index: u32) -> Spot
    ensures spot { IsSpot (items_of blocks.now) index result }
    ensures low { result.part ≤ index }
{
    let mut left = index;
    let mut passed: usize = 0;
    for block in blocks {
        let items = block.count();
        if left < items {
            let spot = spot_in(block.pages(), left);
            return Spot {
                part: passed + spot.part,
                within: spot.within,
            };
        }
        left -= items;
        passed += block.pages().len();
    }
    Spot {
        part: passed,
        within: left as usize,
    }
}

// Where the item with this index stands among these pages. Past the last item it is after the last page.
fn spot_in<T: Spanned + Copy>(pages: &[Page<T>], index: u32) -> Spot
    ensures spot { IsSpot pages.now index result }
    ensures low { result.part ≤ index }
{
    let mut left = index;
    for (part, page) in pages.iter().enumerate() {
        let count = page.count();
        if left < count {
            return Spot {
                part,
                within: left as usize,
            };
        }
        left -= count;
    }
    Spot {
        part: pages.len(),
        within: left as usize,
    }
}

/// What is around some items: whole pages before and after, of which the next ones stand apart, and the items that
/// share their first page and their last.
#[derive(Drop)]
pub struct Surroundings<'a, T: Spanned + Copy> {
    /// How many whole pages are before, but for the last of them.
    pub start: usize,
    /// The last whole page before, if there is one.
    pub near: &'a [Page<T>],
    /// The items before them on their first page.
    pub front: &'a [T],
    /// The items after them on their last page.
    pub back: &'a [T],
    /// The first whole page after, if there is one.
    pub next: &'a [Page<T>],
    /// The index of the whole page after that.
    pub end: usize,
}

/// What is around the items from index `from` up to before `to`.
pub fn around<T: Spanned + Copy>(blocks: &[Block<T>], from: u32, to: u32) -> Surroundings<'_, T>
    requires order { from ≤ to }
    requires within { to ≤ length (items_of (items_of blocks.now)) }
    ensures around { Surrounds (items_of blocks.now) from to
        (take result.start (items_of blocks.now)) result.near.now
        result.front.now result.back.now result.next.now (drop result.end (items_of blocks.now)) }
    ensures order { result.start ≤ result.end }
    ensures within { result.end ≤ length (items_of blocks.now) }
{
    let (whole, front) = before(blocks, from);
    let (back, rest) = behind(blocks, to);
    let start = whole.saturating_sub(1);
    let near = page_or_none(blocks, start, whole - start);
    let next = page_or_none(blocks, rest, 1);
    Surroundings {
        start,
        near,
        front,
        back,
        next,
        end: rest + next.len(),
    }
}

// What is before the item with this index: so many whole pages, and then items of its own page.
fn before<T: Spanned + Copy>(blocks: &[Block<T>], index: u32) -> (usize, &[T])
    requires within { index ≤ length (items_of (items_of blocks.now)) }
    ensures items { take index (items_of (items_of blocks.now))
        ≡ items_of (take result.0 (items_of blocks.now)) ++ result.1.now }
    ensures some { result.0 ≤ length (items_of blocks.now) }
    ensures short { length result.1.now ≤ 64 }
{
    let spot = spot_of(blocks, index);
    match page_at(blocks, spot.part) {
        Some(page) => {
            let (items, _) = page.items().split_at(spot.within);
            (spot.part, items)
        }
        None => (spot.part, &[]),
    }
}

/// The items from this index on: those of its page, and the index of the page after it.
pub fn behind<T: Spanned + Copy>(blocks: &[Block<T>], index: u32) -> (&[T], usize)
    ensures items { drop index (items_of (items_of blocks.now))
        ≡ result.0.now ++ items_of (drop result.1 (items_of blocks.now)) }
    ensures filled { index < length (items_of (items_of blocks.now)) → 0 < length result.0.now }
    ensures some { result.1 ≤ length (items_of blocks.now) }
    ensures low { result.1 ≤ index + 1 }
    ensures past { index < length (items_of (items_of blocks.now))
        → index < length (items_of (take result.1 (items_of blocks.now))) }
    ensures all { length (items_of (items_of blocks.now)) ≤ index
        → result.1 ≡ length (items_of blocks.now) }
    ensures short { length result.0.now ≤ 64 }
{
    let spot = spot_of(blocks, index);
    match page_at(blocks, spot.part) {
        Some(page) => {
            let (_, items) = page.items().split_at(spot.within);
            (items, spot.part + 1)
        }
        None => (&[], spot.part),
    }
}
