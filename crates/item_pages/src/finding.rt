// Which item holds a place.
ghost use Rattle.std.specs.Prelude.{◌≡◌, ◌+◌, ◌<◌, ◌≤◌, ◌↔◌, length, sum_by, IfSome, IsNone};
ghost use Rattle.item_pages.specs.Items.{Fits, HoldsPlace};
ghost use Rattle.item_pages.specs.Packing.{items_of};

use crate::block::Block;
use crate::page::Page;
use crate::{Found, Spanned};
use std::sync::ledger::Ledger;
use step_count::Steps;

/// The item of these blocks that holds the place `at`. A block that ends there or before is passed in one step, and so
/// is a page.
pub fn find_in_blocks<T: Spanned + Copy, L: Ledger>(
    blocks: &[Block<T>],
    at: u32,
    steps: &mut Steps<L>,
) -> Option<Found>
    requires { Fits T.places (items_of (items_of blocks.now)) }
    ensures found { IfSome result (λ f. HoldsPlace T.places (items_of (items_of blocks.now)) at f) }
    ensures none { IsNone result ↔ (sum_by T.places (items_of (items_of blocks.now)) ≤ at) }
    ensures least { steps.old ≤ steps.new }
    ensures most { steps.new ≤ steps.old + length (items_of blocks.now) + 63 }
    ensures few { steps.new ≤ steps.old + length (items_of (items_of blocks.now)) + 63 }
{
    let mut index = 0;
    let mut from = 0;
    for block in blocks {
        let to = from + block.span();
        if at < to {
            let inner = find_in_block(block, at - from, steps);
            return Some(Found {
                index: index + inner.index,
                from: from + inner.from,
            });
        }
        steps.tick();
        index += block.count();
        from = to;
    }
    None
}

// The item of a block that holds a place, counted from where the block begins.
fn find_in_block<T: Spanned + Copy, L: Ledger>(
    block: &Block<T>,
    at: u32,
    steps: &mut Steps<L>,
) -> Found
    requires fits { Fits T.places (items_of block.now) }
    requires at { at < sum_by T.places (items_of block.now) }
    ensures found { HoldsPlace T.places (items_of block.now) at result }
    ensures least { steps.old ≤ steps.new }
    ensures most { steps.new ≤ steps.old + length block.now + 63 }
    ensures few { steps.new ≤ steps.old + length (items_of block.now) + 63 }
{
    match find_in_pages(block.pages(), at, steps) {
        Some(found) => found,
        None => unreachable!(),
    }
}

// The item of these pages that holds the place `at`. A page that ends there or before is passed in one step.
fn find_in_pages<T: Spanned + Copy, L: Ledger>(
    pages: &[Page<T>],
    at: u32,
    steps: &mut Steps<L>,
) -> Option<Found>
    requires { Fits T.places (items_of pages.now) }
    ensures found { IfSome result (λ f. HoldsPlace T.places (items_of pages.now) at f) }
    ensures none { IsNone result ↔ (sum_by T.places (items_of pages.now) ≤ at) }
    ensures least { steps.old ≤ steps.new }
    ensures most { steps.new ≤ steps.old + length pages.now + 63 }
    ensures few { steps.new ≤ steps.old + length (items_of pages.now) + 63 }
{
    let mut index = 0;
    let mut from = 0;
    for page in pages {
        let to = from + page.span();
        if at < to {
            let found = find_in_page(page, at - from, steps);
            return Some(Found {
                index: index + found.index,
                from: from + found.from,
            });
        }
        steps.tick();
        index += page.count();
        from = to;
    }
    None
}

// The item of a page that holds a place, counted from where the page begins.
fn find_in_page<T: Spanned + Copy, L: Ledger>(
    page: &Page<T>,
    at: u32,
    steps: &mut Steps<L>,
) -> Found
    requires { at < sum_by T.places page.now }
    ensures found { HoldsPlace T.places page.now at result }
    ensures least { steps.old ≤ steps.new }
    ensures most { steps.new ≤ steps.old + 64 }
{
    let _span = page.span();
    match find_in(page.items(), at, steps) {
        Some(found) => found,
        None => unreachable!(),
    }
}

// The item that holds a place among these, in a step for each item that is looked at.
fn find_in<T: Spanned, L: Ledger>(items: &[T], at: u32, steps: &mut Steps<L>) -> Option<Found>
    requires { Fits T.places items.now }
    ensures found { IfSome result (λ f. HoldsPlace T.places items.now at f) }
    ensures none { IsNone result ↔ (sum_by T.places items.now ≤ at) }
    ensures least { steps.old ≤ steps.new }
    ensures most { steps.new ≤ steps.old + length items.now }
{
    let mut from = 0;
    for (index, item) in items.iter().enumerate() {
        steps.tick();
        let to = from + item.span();
        if at < to {
            return Some(Found {
                index: index as u32,
                from,
            });
        }
        from = to;
    }
    None
}
