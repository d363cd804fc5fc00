// Lists of items with numbers and sets, of which whole pages are passed by.
use crate::shots::Shot;
use item_pages::{Memory, Number, Pages, Passed, Spanned, Wanted};
use std::alloc::Global;
use std::process::Abort;
use std::test::Fail;

/// A take: its number, if it has one; its set, as bits; and how many places it spans.
#[derive(Clone, Copy, Debug, PartialEq, Eq)]
struct Take {
    number: Option<u32>,
    set: u64,
    len: u8,
}

impl Spanned for Take {
    ghost places = { λ t. t.len };

    ghost numbered = { λ t. t.number };

    ghost set = { λ t. t.set };

    fn span(&self) -> u32 {
        u32::from(self.len)
    }

    fn number(&self) -> Number {
        match self.number {
            Some(number) => Number::Is(number),
            None => Number::Without,
        }
    }

    fn bits(&self) -> u64 {
        self.set
    }
}

fn push_one(rt: &impl Abort, pages: &mut Pages<Take>, take: Take) -> Result<(), Memory> {
    let (count, total) = (pages.count(), pages.total());
    assert!(rt; count < 1_000_000);
    assert!(rt; total < 1_000_000);
    pages.push(take)
}

// 200 takes of two places each, in pages of 64. Each has its index as its number, but for five; takes 10, 130 and 199 have
// sets.
fn takes(rt: &impl Abort, alloc: Global) -> Result<Pages<Take>, Memory> {
    let mut pages = Pages::new(alloc);
    for index in 0..200u32 {
        let number = match index {
            5 => Some(3000),
            70 => None,
            100 => Some(261),
            150 => Some(266),
            195 => Some(u32::MAX),
            _ => Some(index),
        };
        let set = match index {
            10 => 0b1,
            130 => 0b100,
            199 => 1 << 63,
            _ => 0,
        };
        push_one(
            rt,
            &mut pages,
            Take {
                number,
                set,
                len: 2,
            },
        )?;
    }
    Ok(pages)
}

// The index of the first take of this number, and how many pieces were looked at on the way.
fn found(pages: &Pages<Take>, number: u32) -> (Option<u32>, u32) {
    let mut left = pages.items_from(0);
    let mut index: u32 = 0;
    let mut pieces: u32 = 0;
    for _ in 0..=pages.count() {
        let passed = left.pass(Wanted::Numbered(number));
        index = index.saturating_add(passed.count);
        let piece = left.next_piece();
        if piece.is_empty() {
            return (None, pieces);
        }
        pieces = pieces.saturating_add(1);
        for take in piece {
            if take.number == Some(number) {
                return (Some(index), pieces);
            }
            index = index.saturating_add(1);
        }
    }
    (None, pieces)
}

#[test]
fn pages_without_a_number_are_passed_by(rt: HostRuntime) -> Result<(), Fail> {
    let pages = takes(&rt, rt.alloc())?;
    // a number, the take that has it, and how many pages are looked at for it
    for (number, index, pieces) in [
        // the first of a page, and the last
        (0u32, Some(0u32), 1u32),
        (63, Some(63), 1),
        (64, Some(64), 1),
        (127, Some(127), 1),
        (128, Some(128), 1),
        (191, Some(191), 1),
        (192, Some(192), 1),
        (199, Some(199), 1),
        // the greatest of its page, and of all numbers
        (3000, Some(5), 1),
        (u32::MAX, Some(195), 1),
        // past the greatest of a page before, and with the mark of another number there
        (261, Some(100), 1),
        (266, Some(150), 2),
        (184, Some(184), 2),
        // none has it: it has no mark, or that of another number
        (5, None, 0),
        (70, None, 0),
        (100, None, 0),
        (195, None, 0),
        (700, None, 0),
        (3001, None, 0),
        (1024, None, 1),
    ] {
        assert_eq!(rt; found(&pages, number), (index, pieces), "{number}");
    }
    Ok(())
}

// 2,200 takes, which stand in two blocks. Each has its index as its number, and take 2,100 has a set.
#[test]
fn a_number_is_found_in_the_block_that_has_it(rt: HostRuntime) -> Result<(), Fail> {
    let mut pages = Pages::new(rt.alloc());
    for index in 0..2_200u32 {
        let set = if index == 2_100 { 2 } else { 0 };
        let take = Take {
            number: Some(index),
            set,
            len: 2,
        };
        push_one(&rt, &mut pages, take)?;
    }
    for number in [0u32, 63, 1984, 2047, 2048, 2111, 2112, 2199] {
        assert_eq!(rt; found(&pages, number), (Some(number), 1), "{number}");
    }
    assert_eq!(rt; found(&pages, 2_200), (None, 0));
    let passed = passed_at(&pages, Wanted::Beyond(1));
    assert_eq!(rt; (passed.count, passed.places), (2048, 4096));
    let passed = passed_after(&pages, 2_000, Wanted::Beyond(1));
    assert_eq!(rt; passed.count, 0);
    let passed = passed_after(&pages, 1_000, Wanted::Beyond(2));
    assert_eq!(rt; passed.count, 1_176);
    Ok(())
}

// What is passed by at the beginning of a list, and after the items of one page from an index on.
fn passed_at(pages: &Pages<Take>, wanted: Wanted) -> Passed {
    pages.items_from(0).pass(wanted)
}

fn passed_after(pages: &Pages<Take>, index: u32, wanted: Wanted) -> Passed {
    let mut left = pages.items_from(index);
    let _ = left.next_piece();
    left.pass(wanted)
}

#[test]
fn pages_whose_sets_are_known_are_passed_by(rt: HostRuntime) -> Result<(), Fail> {
    let pages = takes(&rt, rt.alloc())?;
    // which bits are known, how many takes are passed by, and how many after the first page
    for (bits, count, after) in [
        // page 0 has bit 0, page 2 bit 2, page 3 bit 63
        (0u64, 0u32, 64u32),
        (1, 128, 64),
        (2, 0, 64),
        (4, 0, 128),
        (5, 192, 128),
        (1 << 63, 0, 64),
        (u64::MAX, 200, 136),
    ] {
        let wanted = Wanted::Beyond(bits);
        let places = count.saturating_mul(2);
        assert_eq!(rt;
            passed_at(&pages, wanted),
            Passed { count, places },
            "{bits}"
        );
        let got = passed_after(&pages, 3, wanted);
        assert_eq!(rt; got.count, after, "{bits}");
    }
    Ok(())
}

#[test]
fn a_page_that_is_read_in_part_is_not_passed_by(rt: HostRuntime) -> Result<(), Fail> {
    let pages = takes(&rt, rt.alloc())?;
    for index in [1u32, 65, 199, 200] {
        let passed = pages.items_from(index).pass(Wanted::Beyond(u64::MAX));
        assert_eq!(rt; (passed.count, passed.places), (0, 0), "{index}");
    }
    Ok(())
}

// Pages know nothing of the number and set of a shot.
#[test]
fn what_is_unknown_is_not_passed_by(rt: HostRuntime) -> Result<(), Fail> {
    let mut pages = Pages::new(rt.alloc());
    push_shot(&rt, &mut pages)?;
    for wanted in [Wanted::Numbered(4), Wanted::Beyond(7)] {
        let passed = pages.items_from(0).pass(wanted);
        assert_eq!(rt; passed.count, 0);
    }
    Ok(())
}

fn push_shot(rt: &impl Abort, pages: &mut Pages<Shot>) -> Result<(), Memory> {
    let (count, total) = (pages.count(), pages.total());
    assert!(rt; count < 1_000_000);
    assert!(rt; total < 1_000_000);
    pages.push(Shot { number: 5, len: 1 })
}
