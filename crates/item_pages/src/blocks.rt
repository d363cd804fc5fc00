// Blocks one after another, whose pages are one list: what is in front of a page and what is after it, and how a page is
// changed.
ghost use Rattle.std.specs.Prelude.{◌≡◌, ◌+◌, ◌-◌, ◌<◌, ◌≤◌, ◌^◌, ◌++◌, ◌∷◌, [], false, length, take, drop, sum_by, slice_set, slice_index_or, IfOk, IfSome, IsNone, OnOk, OnErr, List};
ghost use Rattle.item_pages.specs.Items.{Fits};
ghost use Rattle.item_pages.specs.Packing.{items_of, Packed};

use crate::Spanned;
use crate::block::{Block, MOST_PAGES};
use crate::packing::fit_in_one;
use crate::page::Page;
use crate::spots::place_of;
use out_of_memory::Memory;
use std::alloc::Global;

/// These blocks in a list of its own, which shares each of them.
pub fn shared_blocks<T: Spanned + Copy>(
    alloc: Global,
    blocks: &[Block<T>],
) -> Result<Vec<Block<T>>, Memory>
    ensures { IfOk result (λ all. all.items ≡ blocks.now) }
{
    let mut all = Vec::with_capacity(alloc, blocks.len())?;
    for block in blocks {
        all.push(block.share()?)?;
    }
    Ok(all)
}

/// How many places the items of these blocks span.
pub fn span_of_blocks<T: Spanned + Copy>(blocks: &[Block<T>]) -> u32
    requires { sum_by T.places (items_of (items_of blocks.now)) < 2 ^ 32 }
    ensures { result ≡ sum_by T.places (items_of (items_of blocks.now)) }
{
    let mut span = 0;
    for block in blocks {
        span += block.span();
    }
    span
}

/// The page with this index, or `None` where there is none.
pub fn page_at<T: Spanned + Copy>(blocks: &[Block<T>], index: usize) -> Option<&Page<T>>
    ensures some { IfSome result (λ page. index < length (items_of blocks.now)) }
    ensures page { IfSome result (λ page. (none : List T)
        → page.now ≡ slice_index_or (items_of blocks.now) index none) }
    ensures none { IsNone result → length (items_of blocks.now) ≤ index }
{
    let spot = place_of(blocks, index);
    if spot.part == blocks.len() {
        return None;
    }
    Some(&blocks[spot.part].pages()[spot.within])
}

/// The page with this index.
pub fn page_of<T: Spanned + Copy>(blocks: &[Block<T>], index: usize) -> &Page<T>
    requires { index < length (items_of blocks.now) }
    ensures { (none : List T) → result.now ≡ slice_index_or (items_of blocks.now) index none }
{
    match page_at(blocks, index) {
        Some(page) => page,
        None => unreachable!(),
    }
}

/// The pages before this one: whole blocks, and then pages of its own block.
pub fn pages_before<T: Spanned + Copy>(
    blocks: &[Block<T>],
    index: usize,
) -> (&[Block<T>], &[Page<T>])
    requires within { index ≤ length (items_of blocks.now) }
    ensures pages { take index (items_of blocks.now) ≡ items_of result.0.now ++ result.1.now }
    ensures whole { result.0.now ≡ take (length result.0.now) blocks.now }
    ensures some { length result.0.now ≤ length blocks.now }
{
    let spot = place_of(blocks, index);
    let (whole, _) = blocks.split_at(spot.part);
    if spot.part == blocks.len() {
        return (whole, &[]);
    }
    let (pages, _) = blocks[spot.part].pages().split_at(spot.within);
    (whole, pages)
}

/// The pages from this one on: those of its block, and the blocks after it.
pub fn pages_behind<T: Spanned + Copy>(
    blocks: &[Block<T>],
    index: usize,
) -> (&[Page<T>], &[Block<T>])
    ensures pages { drop index (items_of blocks.now) ≡ result.0.now ++ items_of result.1.now }
    ensures filled { index < length (items_of blocks.now) → 0 < length result.0.now }
    ensures whole { result.1.now ≡ drop (length blocks.now - length result.1.now) blocks.now }
    ensures some { length result.1.now ≤ length blocks.now }
{
    let spot = place_of(blocks, index);
    let (_, rest) = blocks.split_at(spot.part);
    if spot.part == blocks.len() {
        return (&[], rest);
    }
    let (_, pages) = blocks[spot.part].pages().split_at(spot.within);
    let (_, rest) = blocks.split_at(spot.part + 1);
    (pages, rest)
}

/// The page with this index, and nothing where there is none or as many as none are wanted.
pub fn page_or_none<T: Spanned + Copy>(blocks: &[Block<T>], index: usize, most: usize) -> &[Page<T>]
    requires { most ≤ 1 }
    ensures { result.now ≡ take most (drop index (items_of blocks.now)) }
{
    let (pages, _) = pages_behind(blocks, index);
    let (page, _) = pages.split_at(pages.len().min(most));
    page
}

/// Puts blocks in place of those from index `first` up to before `last`.
pub fn put_blocks<T: Spanned + Copy>(
    blocks: &mut Vec<Block<T>>,
    first: usize,
    last: usize,
    fresh: Vec<Block<T>>,
) -> Result<(), Memory>
    requires order { first ≤ last }
    requires within { last ≤ length blocks.old.items }
    ensures ok { OnOk result (blocks.new.items
        ≡ take first blocks.old.items ++ (fresh.items ++ drop last blocks.old.items)) }
    ensures err { OnErr result (blocks.new.items ≡ blocks.old.items) }
{
    let _gone = blocks.splice(first..last, fresh)?;
    Ok(())
}

/// Puts a page in place of the one with this index.
pub fn set_page<T: Spanned + Copy>(
    alloc: Global,
    blocks: &mut Vec<Block<T>>,
    index: usize,
    page: Page<T>,
) -> Result<(), Memory>
    requires within { index < length (items_of blocks.old.items) }
    requires fits { Fits T.places (items_of (slice_set (items_of blocks.old.items) index page)) }
    ensures ok { OnOk result (items_of blocks.new.items
        ≡ slice_set (items_of blocks.old.items) index page) }
    ensures err { OnErr result (blocks.new.items ≡ blocks.old.items) }
{
    let spot = place_of(blocks, index);
    blocks[spot.part].set(alloc, spot.within, page)?;
    Ok(())
}

/// Puts a page after the others. Where it fits in one with the last of them, the two become one.
pub fn push_to_blocks<T: Spanned + Copy>(
    alloc: Global,
    blocks: &mut Vec<Block<T>>,
    page: Page<T>,
) -> Result<(), Memory>
    requires packed { Packed (items_of blocks.old.items) }
    requires fits { Fits T.places (items_of (items_of blocks.old.items) ++ page) }
    ensures items { OnOk result (items_of (items_of blocks.new.items)
        ≡ items_of (items_of blocks.old.items) ++ page) }
    ensures packed { OnOk result (Packed (items_of blocks.new.items)) }
    ensures err { OnErr result (blocks.new.items ≡ blocks.old.items) }
{
    let count = blocks.len();
    if count > 0 && takes_more(&blocks[count - 1], &page) {
        blocks[count - 1].push(alloc, page)?;
        return Ok(());
    }
    let block = block_of(alloc, page)?;
    blocks.push(block)?;
    Ok(())
}

// Whether a page may be put into a block: there is room, or it fits in one with the last page.
fn takes_more<T: Spanned + Copy>(block: &Block<T>, page: &Page<T>) -> bool
    ensures filled { 0 < length block.now }
    ensures full { result ≡ false → (none : List T)
        → 64 < length (slice_index_or block.now (length block.now - 1) none) + length page.now }
{
    let pages = block.pages();
    pages.len() < MOST_PAGES || fit_in_one(&pages[pages.len() - 1], page)
}

// The block of one page.
fn block_of<T: Spanned + Copy>(alloc: Global, page: Page<T>) -> Result<Block<T>, Memory>
    requires { Fits T.places page }
    ensures { IfOk result (λ b. b ≡ page ∷ []) }
{
    let mut pages = Vec::with_capacity(alloc, 1)?;
    pages.push(page)?;
    Block::of(alloc, pages)
}
