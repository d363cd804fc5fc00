// Pages that come in place of others among blocks: which blocks give way, and those that come.
ghost use Rattle.std.specs.Prelude.{◌≡◌, ◌-◌, ◌<◌, ◌≤◌, ◌++◌, length, take, drop, IfOk, OnOk};
ghost use Rattle.item_pages.specs.Items.{Fits};
ghost use Rattle.item_pages.specs.Packing.{items_of};

use crate::Spanned;
use crate::block::{Block, MOST_PAGES};
use crate::blocks::{pages_before, pages_behind};
use crate::packing::shared;
use crate::page::Page;
use out_of_memory::Memory;
use std::alloc::Global;

// With fewer pages than these, the blocks next to the change are taken in.
const FEW_PAGES: usize = MOST_PAGES / 2;

/// So many blocks stay before those that come, and so many after them.
#[derive(Drop)]
pub struct Cut<T: Spanned + Copy> {
    pub before: usize,
    pub behind: usize,
    pub fresh: Vec<Block<T>>,
}

/// The blocks with these pages in place of those from index `start` up to before `end`.
pub fn recut<T: Spanned + Copy>(
    alloc: Global,
    blocks: &[Block<T>],
    start: usize,
    end: usize,
    fresh: &[Page<T>],
) -> Result<Cut<T>, Memory>
    requires order { start ≤ end }
    requires within { end ≤ length (items_of blocks.now) }
    requires fits { Fits T.places (items_of
        (take start (items_of blocks.now) ++ (fresh.now ++ drop end (items_of blocks.now)))) }
    ensures pages { IfOk result (λ c. items_of
        (take c.before blocks.now ++ (c.fresh.items ++ drop c.behind blocks.now))
        ≡ take start (items_of blocks.now) ++ (fresh.now ++ drop end (items_of blocks.now))) }
    ensures order { IfOk result (λ c. c.before ≤ c.behind) }
    ensures within { IfOk result (λ c. c.behind ≤ length blocks.now) }
{
    let (whole, front) = pages_before(blocks, start);
    let (_, tail) = blocks.split_at(whole.len());
    let (back, rest) = pages_behind(tail, end - start + front.len());
    let count = front
        .len()
        .saturating_add(fresh.len())
        .saturating_add(back.len());
    let (whole, before) = neighbour_before(whole, count < FEW_PAGES);
    let (behind, rest) = neighbour_behind(rest, count < FEW_PAGES);
    let mut pages = Vec::with_capacity(alloc, count)?;
    share_pages(&mut pages, before)?;
    share_pages(&mut pages, front)?;
    share_pages(&mut pages, fresh)?;
    share_pages(&mut pages, back)?;
    share_pages(&mut pages, behind)?;
    let fresh = blocks_of(alloc, pages)?;
    Ok(Cut {
        before: whole.len(),
        behind: blocks.len() - rest.len(),
        fresh,
    })
}

// The last of these blocks, if a neighbour is to be taken in: the blocks before it, and its pages.
fn neighbour_before<T: Spanned + Copy>(
    blocks: &[Block<T>],
    wanted: bool,
) -> (&[Block<T>], &[Page<T>])
    ensures pages { items_of blocks.now ≡ items_of result.0.now ++ result.1.now }
    ensures whole { result.0.now ≡ take (length result.0.now) blocks.now }
    ensures some { length result.0.now ≤ length blocks.now }
{
    if !wanted || blocks.is_empty() {
        return (blocks, &[]);
    }
    let (before, last) = blocks.split_at(blocks.len() - 1);
    (before, last[0].pages())
}

// The first of these blocks, if a neighbour is to be taken in: its pages, and the blocks after it.
fn neighbour_behind<T: Spanned + Copy>(
    blocks: &[Block<T>],
    wanted: bool,
) -> (&[Page<T>], &[Block<T>])
    ensures pages { items_of blocks.now ≡ result.0.now ++ items_of result.1.now }
    ensures whole { result.1.now ≡ drop (length blocks.now - length result.1.now) blocks.now }
    ensures some { length result.1.now ≤ length blocks.now }
{
    if !wanted || blocks.is_empty() {
        return (&[], blocks);
    }
    let (first, behind) = blocks.split_at(1);
    (first[0].pages(), behind)
}

// Puts these pages after others, shared.
fn share_pages<T: Spanned + Copy>(all: &mut Vec<Page<T>>, pages: &[Page<T>]) -> Result<(), Memory>
    ensures { OnOk result (all.new.items ≡ all.old.items ++ pages.now) }
{
    for page in pages {
        all.push(page.share()?)?;
    }
    Ok(())
}

// The blocks of these pages. All but the last have as many as the least that no neighbour joins.
fn blocks_of<T: Spanned + Copy>(alloc: Global, pages: Vec<Page<T>>) -> Result<Vec<Block<T>>, Memory>
    requires { Fits T.places (items_of pages.items) }
    ensures { IfOk result (λ all. items_of all.items ≡ pages.items) }
{
    let mut blocks = Vec::new(alloc);
    if pages.is_empty() {
        return Ok(blocks);
    }
    if pages.len() <= MOST_PAGES {
        let block = Block::of(alloc, pages)?;
        blocks.push(block)?;
        return Ok(blocks);
    }
    share_blocks(alloc, &mut blocks, &pages)?;
    Ok(blocks)
}

// Puts these pages into blocks, shared.
fn share_blocks<T: Spanned + Copy>(
    alloc: Global,
    blocks: &mut Vec<Block<T>>,
    pages: &[Page<T>],
) -> Result<(), Memory>
    requires { Fits T.places (items_of pages.now) }
    ensures { OnOk result (items_of blocks.new.items ≡ items_of blocks.old.items ++ pages.now) }
{
    let mut left = pages;
    while !left.is_empty() {
        let (some, rest) = left.split_at(count_of(left.len()));
        let block = Block::of(alloc, shared(alloc, some)?)?;
        blocks.push(block)?;
        left = rest;
    }
    Ok(())
}

// How many of so many pages are put into the next block.
fn count_of(pages: usize) -> usize
    requires { 0 < pages }
    ensures some { 0 < result }
    ensures within { result ≤ pages }
{
    if pages > MOST_PAGES { FEW_PAGES } else { pages }
}
