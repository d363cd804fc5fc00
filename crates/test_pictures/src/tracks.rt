// The tables and tracks of the tests of ranges and of dissolves.
use composables::{ItemView, Kind, Listed, Media, Nest, Reels, Table};
use frame_meaning::{Mark, Memory, What};
use std::alloc::Global;

/// A table with a media entry for each of these ranges of source frames, and a nest of 100 frames.
pub fn table(alloc: Global, ranges: &[(u32, u32)]) -> Result<Table, Memory> {
    let mut table = Table {
        kinds: Listed::new(alloc),
        reels: Reels::new(alloc),
        media: Listed::new(alloc),
        nests: Listed::new(alloc),
    };
    table.kinds.push(Kind::Video)?;
    for (from, to) in ranges {
        table.media.push(Media {
            reel: 0,
            from: *from,
            to: *to,
        })?;
    }
    table.nests.push(Nest {
        layers: Listed::new(alloc),
        length: 100,
    })?;
    Ok(table)
}

/// An item of the table's nest from its frame 4 on.
pub fn nest(number: u32, len: u32) -> ItemView {
    ItemView::clip(number, What::Nest(0), 4, len)
}

// A dissolve of so many frames before and after its cut; (0, 0) is none.
fn mark(a: u32, b: u32) -> Option<Mark> {
    if a == 0 && b == 0 {
        return None;
    }
    Some(Mark { a, b })
}

/// How many dissolves three items can have at their two cuts, of up to two frames on each side.
pub const CODES: u32 = 81;

/// The items with those that a number below `CODES` stands for.
pub fn marked(items: [ItemView; 3], code: u32) -> [ItemView; 3] {
    let [first, second, third] = items;
    let second = ItemView {
        mark: mark(code % 3, code / 3 % 3),
        ..second
    };
    let third = ItemView {
        mark: mark(code / 9 % 3, code / 27),
        ..third
    };
    [first, second, third]
}
