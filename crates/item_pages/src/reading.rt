// The items of a list, read one after another.
ghost use Rattle.std.specs.Prelude.{◌≡◌, [], ◌∷◌, ◌++◌, ◌≤◌, IfSome, IsNone};
ghost use Rattle.item_pages.specs.Packing.{items_of};

use crate::block::Block;
use crate::page::Page;
use crate::passing::{pass, pass_keyless};
use crate::{Passed, Spanned, Wanted};
use std::marker::Model;

/// Items that were passed by, with the keys of those that have one. There may be keys of none of them.
#[derive(Clone, Copy)]
pub struct Row<'a> {
    /// How many they are.
    pub count: u32,
    /// How many places they span.
    pub places: u32,
    /// Their keys.
    pub keys: &'a [u32],
}

/// Reads the items of a list in order, page by page. Contracts see those that are left: of one page, of the pages after
/// it in its block, and of the blocks after that.
#[derive(Drop)]
pub struct Reader<'a, T: Spanned + Copy> {
    piece: &'a [T],
    behind: &'a [Page<T>],
    blocks: &'a [Block<T>],
}

impl<'a, T: Spanned + Copy> Model for Reader<'a, T> {
    ghost use Rattle.std.specs.Prelude.{List, ◌++◌};
    ghost use Rattle.item_pages.specs.Packing.{items_of};

    ghost Value = { List T };

    ghost view = { λ r. r.piece.now ++ items_of (r.behind.now ++ items_of r.blocks.now) };

    ghost use Rattle.item_pages.specs.Items.{Fits};

    ghost invariant = { λ r. Fits T.places
        (r.piece.now ++ items_of (r.behind.now ++ items_of r.blocks.now)) };
}

impl<'a, T: Spanned + Copy> Reader<'a, T> {
    ghost use Rattle.std.specs.Prelude.{◌++◌};
    ghost use Rattle.item_pages.specs.Items.{Fits};
    ghost use Rattle.item_pages.specs.Packing.{items_of};
    ghost use Rattle.item_pages.specs.Keys.{RowPassed};
    ghost use Rattle.item_pages.specs.Wants.{PassedBy};
    ghost use Rattle.item_pages.specs.declared.spans.Wanted.TheVariants.{Numbered};

    // A reader of these items of a page, then of pages, and then of those of blocks.
    pub(crate) fn of(piece: &'a [T], behind: &'a [Page<T>], blocks: &'a [Block<T>]) -> Reader<'a, T>
        requires { Fits T.places (piece.now ++ items_of (behind.now ++ items_of blocks.now)) }
        ensures { result ≡ piece.now ++ items_of (behind.now ++ items_of blocks.now) }
    {
        Reader {
            piece,
            behind,
            blocks,
        }
    }

    /// Those that are left of one page: not none, where any is left.
    pub fn next_piece(&mut self) -> &'a [T]
        ensures parts { self.old ≡ result.now ++ self.new }
        ensures none { result.now ≡ [] → self.old ≡ [] }
    {
        let piece = self.piece;
        if !piece.is_empty() {
            self.piece = &[];
            return piece;
        }
        match next_page(self.behind, self.blocks) {
            Some(next) => {
                *self = Reader::of(&[], next.behind, next.blocks);
                let _count = next.page.count();
                next.page.items()
            }
            None => piece,
        }
    }

    /// The first that is left, or `None` where none is.
    pub fn next(&mut self) -> Option<T>
        ensures some { IfSome result (λ item. self.old ≡ item ∷ self.new) }
        ensures none { IsNone result → (self.old ≡ []) × (self.new ≡ []) }
    {
        match self.piece.split_first() {
            Some((first, rest)) => {
                self.piece = rest;
                return Some(*first);
            }
            None => {}
        }
        let next = next_page(self.behind, self.blocks)?;
        let (first, rest) = next.page.split_first();
        *self = Reader::of(rest, next.behind, next.blocks);
        Some(*first)
    }

    /// Passes by the pages in front of which no item is wanted. It looks at no item, and passes by none of a page that is
    /// read in part.
    pub fn pass(&mut self, wanted: Wanted) -> Passed
        ensures { PassedBy T.places T.numbered T.set wanted self.old result self.new }
    {
        if self.piece.is_empty() {
            let (passed, behind, blocks) = pass(self.behind, self.blocks, wanted);
            *self = Reader::of(&[], behind, blocks);
            return passed;
        }
        Passed {
            count: 0,
            places: 0,
        }
    }

    /// Passes by the pages in front of which no item has this key, as `pass` does.
    pub fn pass_without(&mut self, key: u32) -> Passed
        ensures { PassedBy T.places T.keyed T.set (Numbered key) self.old result self.new }
    {
        if self.piece.is_empty() {
            let (passed, behind, blocks) = pass_keyless(self.behind, self.blocks, key);
            *self = Reader::of(&[], behind, blocks);
            return passed;
        }
        Passed {
            count: 0,
            places: 0,
        }
    }

    /// Passes by the page in front, where that is not read in part, spans at most so many places, and its keys are
    /// known.
    pub fn pass_row(&mut self, most: u32) -> Option<Row<'a>>
        ensures some { IfSome result (λ r. RowPassed T.places T.keyed r.count r.places r.keys.now
            self.old self.new) }
        ensures most { IfSome result (λ r. r.places ≤ most) }
        ensures none { IsNone result → self.new ≡ self.old }
    {
        if !self.piece.is_empty() {
            return None;
        }
        let next = match next_page(self.behind, self.blocks) {
            Some(next) => next,
            None => return None,
        };
        let page = next.page;
        if page.span() > most {
            return None;
        }
        let keys = match page.row() {
            Some(keys) => keys,
            None => return None,
        };
        *self = Reader::of(&[], next.behind, next.blocks);
        Some(Row {
            count: page.count(),
            places: page.span(),
            keys,
        })
    }
}

// A page, the pages after it in its block, and the blocks after that.
#[derive(Clone, Copy)]
struct Next<'a, T: Spanned + Copy> {
    page: &'a Page<T>,
    behind: &'a [Page<T>],
    blocks: &'a [Block<T>],
}

// The first of these pages, or else that of these blocks.
fn next_page<'a, T: Spanned + Copy>(
    pages: &'a [Page<T>],
    blocks: &'a [Block<T>],
) -> Option<Next<'a, T>>
    ensures some { IfSome result (λ n. pages.now ++ items_of blocks.now
        ≡ n.page.now ∷ (n.behind.now ++ items_of n.blocks.now)) }
    ensures none { IsNone result → pages.now ++ items_of blocks.now ≡ [] }
{
    match pages.split_first() {
        Some((page, behind)) => {
            return Some(Next {
                page,
                behind,
                blocks,
            });
        }
        None => {}
    }
    let (block, blocks) = blocks.split_first()?;
    match block.pages().split_first() {
        Some((page, behind)) => Some(Next {
            page,
            behind,
            blocks,
        }),
        None => unreachable!(),
    }
}
