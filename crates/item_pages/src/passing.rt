// Pages that are passed by, since none of their items is wanted.
ghost use Rattle.std.specs.Prelude.{◌≡◌, ◌++◌};
ghost use Rattle.item_pages.specs.Items.{Fits};
ghost use Rattle.item_pages.specs.Packing.{items_of};
ghost use Rattle.item_pages.specs.Wants.{PassedBy};
ghost use Rattle.item_pages.specs.declared.spans.Wanted.TheVariants.{Numbered};

use crate::block::Block;
use crate::page::Page;
use crate::{Passed, Spanned, Wanted};

/// Passes these pages and the blocks after them up to a page that may have an item that is wanted, and
/// gives those that are left: pages of a block, and the blocks after it.
pub fn pass<'a, T: Spanned + Copy>(
    pages: &'a [Page<T>],
    blocks: &'a [Block<T>],
    wanted: Wanted,
) -> (Passed, &'a [Page<T>], &'a [Block<T>])
    requires { Fits T.places (items_of (pages.now ++ items_of blocks.now)) }
    ensures { PassedBy T.places T.numbered T.set wanted (items_of (pages.now ++ items_of blocks.now))
        result.0 (items_of (result.1.now ++ items_of result.2.now)) }
{
    let (mut passed, left) = pass_pages(pages, wanted);
    if !left.is_empty() {
        return (passed, left, blocks);
    }
    for (index, block) in blocks.iter().enumerate() {
        let (more, left) = pass_pages(block.pages(), wanted);
        passed.count += more.count;
        passed.places += more.places;
        if !left.is_empty() {
            let (_, rest) = blocks.split_at(index + 1);
            return (passed, left, rest);
        }
    }
    (passed, &[], &[])
}

/// Passes these pages and the blocks after them up to a page that may have an item with this key, and
/// gives those that are left: pages of a block, and the blocks after it.
pub fn pass_keyless<'a, T: Spanned + Copy>(
    pages: &'a [Page<T>],
    blocks: &'a [Block<T>],
    key: u32,
) -> (Passed, &'a [Page<T>], &'a [Block<T>])
    requires { Fits T.places (items_of (pages.now ++ items_of blocks.now)) }
    ensures { PassedBy T.places T.keyed T.set (Numbered key) (items_of (pages.now ++ items_of blocks.now))
        result.0 (items_of (result.1.now ++ items_of result.2.now)) }
{
    let (mut passed, left) = pass_keyless_pages(pages, key);
    if !left.is_empty() {
        return (passed, left, blocks);
    }
    for (index, block) in blocks.iter().enumerate() {
        let (more, left) = pass_keyless_pages(block.pages(), key);
        passed.count += more.count;
        passed.places += more.places;
        if !left.is_empty() {
            let (_, rest) = blocks.split_at(index + 1);
            return (passed, left, rest);
        }
    }
    (passed, &[], &[])
}

// Passes the pages in front that have no item that is wanted, and gives those that are left.
fn pass_pages<T: Spanned + Copy>(pages: &[Page<T>], wanted: Wanted) -> (Passed, &[Page<T>])
    requires { Fits T.places (items_of pages.now) }
    ensures { PassedBy T.places T.numbered T.set wanted (items_of pages.now)
        result.0 (items_of result.1.now) }
{
    let mut count = 0;
    let mut places = 0;
    for (index, page) in pages.iter().enumerate() {
        if page.may_have(wanted) {
            return (Passed { count, places }, pages.split_at(index).1);
        }
        count += page.count();
        places += page.span();
    }
    (Passed { count, places }, &[])
}

// Passes the pages in front that have no item with this key, and gives those that are left.
fn pass_keyless_pages<T: Spanned + Copy>(pages: &[Page<T>], key: u32) -> (Passed, &[Page<T>])
    requires { Fits T.places (items_of pages.now) }
    ensures { PassedBy T.places T.keyed T.set (Numbered key) (items_of pages.now)
        result.0 (items_of result.1.now) }
{
    let mut count = 0;
    let mut places = 0;
    for (index, held) in pages.iter().enumerate() {
        if held.may_have_key(key) {
            let (_, left) = pages.split_at(index);
            return (Passed { count, places }, left);
        }
        count += held.count();
        places += held.span();
    }
    (Passed { count, places }, &[])
}
