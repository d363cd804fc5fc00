// Lists in pages beside plain lists.
ghost use Rattle.std.specs.Prelude.{◌≡◌, ◌<◌};

use crate::shots::{Shot, places_of, plainly_replaced, shots};
use item_pages::{Found, Memory, Pages, Spanned};
use std::alloc::Global;
use std::marker::Brand;
use std::process::Abort;
use std::sync::ledger::{Blank, Ledger};
use std::test::Fail;
use step_count::Steps;

// Adds these at the end, one by one.
fn push_all(rt: &impl Abort, pages: &mut Pages<Shot>, shots: &[Shot]) -> Result<(), Memory> {
    for shot in shots {
        push_one(rt, pages, *shot)?;
    }
    Ok(())
}

// Adds a shot at the end.
fn push_one(rt: &impl Abort, pages: &mut Pages<Shot>, shot: Shot) -> Result<(), Memory> {
    let (count, total) = (pages.count(), pages.total());
    assert!(rt; count < 1_000_000);
    assert!(rt; total < 1_000_000);
    pages.push(shot)
}

// Puts these in place of the shots from index `from` up to before `to`.
fn put<L: Ledger>(
    rt: &impl Abort,
    pages: &mut Pages<Shot>,
    from: u32,
    to: u32,
    more: Vec<Shot>,
    steps: &mut Steps<L>,
) -> Result<(), Memory> {
    let (count, total) = (pages.count(), pages.total());
    assert!(rt; from <= to);
    assert!(rt; to <= count);
    assert!(rt; count < 1_000_000);
    assert!(rt; total < 1_000_000);
    assert!(rt; more.len() < 1_000_000);
    let places = places_of(&more);
    assert!(rt; places < 1_000_000);
    pages.replace(from, to, more, steps)
}

// Gives a shot another number.
fn renumber(alloc: Global, pages: &mut Pages<Shot>, index: u32, number: u32) -> Result<(), Memory> {
    match pages.get(index).copied() {
        Some(shot) => pages.set(alloc, index, Shot { number, ..shot }),
        None => Ok(()),
    }
}

// Whether a list in pages is this one, whatever is asked of it.
fn is_list<L: Ledger>(
    alloc: Global,
    pages: &Pages<Shot>,
    shots: &[Shot],
    steps: &mut Steps<L>,
) -> Result<bool, Memory> {
    Ok(
        has_each(pages, shots, steps)
            && read(alloc, pages, 0)?.as_slice() == shots
            && read(alloc, pages, 70)?.as_slice() == shots.get(70..).unwrap_or_default()
            && pages.to_vec(alloc)?.as_slice() == shots,
    )
}

// Whether it has each of these at its index and at the first and the last of its places, and nothing else.
fn has_each<L: Ledger>(pages: &Pages<Shot>, shots: &[Shot], steps: &mut Steps<L>) -> bool {
    let mut index: u32 = 0;
    let mut from: u32 = 0;
    for shot in shots {
        let to = from.saturating_add(shot.span());
        if pages.get(index).copied() != Some(*shot) {
            return false;
        }
        if from < to && !holds(pages, Found { index, from }, to - 1, steps) {
            return false;
        }
        index = index.saturating_add(1);
        from = to;
    }
    (pages.count(), pages.total()) == (index, from)
        && pages.get(index).is_none()
        && pages.find(from, steps).is_none()
}

// Whether this is found at its first place, and at the one that is its last.
fn holds<L: Ledger>(pages: &Pages<Shot>, found: Found, last: u32, steps: &mut Steps<L>) -> bool {
    pages.find(found.from, steps) == Some(found) && pages.find(last, steps) == Some(found)
}

// The list as it is read from an index on.
fn read(alloc: Global, pages: &Pages<Shot>, from: u32) -> Result<Vec<Shot>, Memory> {
    let mut all = Vec::new(alloc);
    let mut left = pages.items_from(from);
    for _ in 0..=pages.count() {
        match left.next() {
            Some(shot) => all.push(shot)?,
            None => {}
        }
    }
    Ok(all)
}

// Whether a list that is filled shot by shot, and changed so, is as a plain one; and whether a copy that was made
// before stays as it was.
fn changes<L: Ledger>(
    rt: &impl Abort,
    alloc: Global,
    blank: Blank,
    count: u32,
    range: (u32, u32),
    more: u32,
) -> Result<bool, Memory>
    requires { (blank.name ≡ L.name) × (blank.parts ≡ L.parts) × (0 < blank.parts) }
{
    let mut steps = Steps::<L>::new(blank);
    let (from, to) = range;
    let old = shots(alloc, 1, count)?;
    let new = shots(alloc, 7000, more)?;
    let want = plainly_replaced(alloc, &old, from, to, &new)?;
    let mut pages = Pages::new(alloc);
    push_all(rt, &mut pages, &old)?;
    let before = pages.copy(alloc)?;
    put(rt, &mut pages, from, to, new, &mut steps)?;
    Ok(is_list(alloc, &pages, &want, &mut steps)? && is_list(alloc, &before, &old, &mut steps)?)
}

#[test]
fn a_list_is_changed_as_a_plain_one(rt: HostRuntime) -> Result<(), Fail> {
    // how many there are, which of them give way, and to how many
    for (count, range, more) in [
        // filled in one go, or shot by shot
        (0u32, (0u32, 0u32), 0u32),
        (0, (0, 0), 1),
        (0, (0, 0), 64),
        (0, (0, 0), 65),
        (0, (0, 0), 128),
        (0, (0, 0), 129),
        (64, (0, 0), 0),
        (65, (0, 0), 0),
        (128, (128, 128), 0),
        (129, (50, 50), 0),
        // at both ends
        (64, (64, 64), 1),
        (64, (0, 0), 1),
        (129, (0, 0), 130),
        (129, (129, 129), 130),
        // in the middle: at the border of a page, within one, over several
        (200, (64, 64), 1),
        (200, (63, 65), 0),
        (200, (100, 101), 1),
        (200, (64, 128), 64),
        (200, (10, 150), 2),
        (400, (100, 300), 129),
        // all by nothing, by one, by as many
        (1, (0, 1), 0),
        (200, (0, 200), 0),
        (200, (0, 200), 1),
        (129, (0, 129), 129),
    ] {
        let same = changes::<Brand>(&rt, rt.alloc(), Blank::new(1), count, range, more)?;
        assert!(rt; same, "{count} shots, {more} more");
    }
    Ok(())
}

// Pages of 64 shots stand in blocks of 32 pages: a block that is filled shot by shot has 2,048.
#[test]
fn a_list_is_changed_at_the_borders_of_blocks(rt: HostRuntime) -> Result<(), Fail> {
    for (count, range, more) in [
        // a block that is full, and one page more; 64 pages, and 65
        (2048u32, (2048u32, 2048u32), 1u32),
        (2049, (0, 1), 1),
        (4096, (4096, 4096), 64),
        (4160, (0, 0), 65),
        // before, over and after the border of two blocks
        (2200, (2047, 2047), 1),
        (2200, (2048, 2048), 1),
        (2200, (2047, 2049), 0),
        (2200, (2048, 2112), 3),
        (2200, (1984, 2112), 200),
        // a small block, and none of it
        (2200, (2100, 2150), 5),
        (2200, (2048, 2200), 0),
        // several blocks by none, by few, by many
        (4160, (64, 4100), 0),
        (4160, (0, 4160), 1),
        (4160, (2000, 4160), 2300),
    ] {
        let same = changes::<Brand>(&rt, rt.alloc(), Blank::new(1), count, range, more)?;
        assert!(rt; same, "{count} shots, {more} more");
    }
    Ok(())
}

// Whether a list of three blocks is as a plain one after so many changes at scattered places, and a copy of it from
// before the last of them as it was.
fn scattered<L: Ledger>(
    rt: &impl Abort,
    alloc: Global,
    blank: Blank,
    changes: u32,
) -> Result<bool, Memory>
    requires { (blank.name ≡ L.name) × (blank.parts ≡ L.parts) × (0 < blank.parts) }
{
    let mut steps = Steps::<L>::new(blank);
    let mut plain = shots(alloc, 1, 4_160)?;
    let mut pages = Pages::new(alloc);
    push_all(rt, &mut pages, &plain)?;
    let mut before = Pages::new(alloc);
    let mut old = Vec::new(alloc);
    let mut seed: u32 = 7;
    for number in 0..changes {
        seed = seed.wrapping_mul(1_664_525).wrapping_add(1_013_904_223);
        let (from, to) = range_in(pages.count(), seed);
        let new = shots(alloc, number, (seed >> 8) % 80)?;
        let want = plainly_replaced(alloc, &plain, from, to, &new)?;
        before = pages.copy(alloc)?;
        put(rt, &mut pages, from, to, new, &mut steps)?;
        old = plain;
        plain = want;
    }
    Ok(is_list(alloc, &pages, &plain, &mut steps)? && is_list(alloc, &before, &old, &mut steps)?)
}

#[test]
fn a_list_of_blocks_is_changed_at_scattered_places(rt: HostRuntime) -> Result<(), Fail> {
    assert!(rt; scattered::<Brand>(&rt, rt.alloc(), Blank::new(1), 100)?);
    Ok(())
}

#[test]
fn a_shot_is_changed_in_its_block_alone(rt: HostRuntime) -> Result<(), Fail> {
    let alloc = rt.alloc();
    let mut pages = Pages::new(alloc);
    push_all(&rt, &mut pages, &shots(alloc, 0, 4_160)?)?;
    let before = pages.copy(alloc)?;
    for index in [0, 2047, 2048, 4095, 4096, 4159, 2047] {
        renumber(alloc, &mut pages, index, index + 9000)?;
    }
    push_one(&rt, &mut pages, Shot { number: 1, len: 1 })?;
    for (index, number) in [
        (0, 9000),
        (1, 1),
        (2046, 2046),
        (2047, 11_047),
        (2048, 11_048),
        (4095, 13_095),
        (4096, 13_096),
        (4159, 13_159),
    ] {
        let now = pages.get(index).map(|shot| shot.number);
        let then = before.get(index).map(|shot| shot.number);
        assert_eq!(rt; (now, then), (Some(number), Some(index)), "{index}");
    }
    assert_eq!(rt; (pages.count(), before.count()), (4161, 4160));
    assert_eq!(rt; before.get(4160), None);
    Ok(())
}

// Whether lists stay as plain ones over so many changes one after another, each after a copy that stays as it was.
fn changes_on<L: Ledger>(
    rt: &impl Abort,
    alloc: Global,
    blank: Blank,
    changes: u32,
) -> Result<bool, Memory>
    requires { (blank.name ≡ L.name) × (blank.parts ≡ L.parts) × (0 < blank.parts) }
{
    let mut steps = Steps::<L>::new(blank);
    let mut pages = Pages::new(alloc);
    let mut plain = Vec::new(alloc);
    let mut seed: u32 = 1;
    for number in 0..changes {
        seed = seed.wrapping_mul(1_664_525).wrapping_add(1_013_904_223);
        let (from, to) = range_in(pages.count(), seed);
        let new = shots(alloc, number, (seed >> 8) % 90)?;
        let want = plainly_replaced(alloc, &plain, from, to, &new)?;
        let before = pages.copy(alloc)?;
        put(rt, &mut pages, from, to, new, &mut steps)?;
        if !is_list(alloc, &pages, &want, &mut steps)?
            || !is_list(alloc, &before, &plain, &mut steps)?
        {
            return Ok(false);
        }
        plain = want;
    }
    Ok(true)
}

// A range of so many, mostly a short one.
fn range_in(count: u32, seed: u32) -> (u32, u32) {
    let from = (seed >> 4) % count.saturating_add(1);
    let len = (seed >> 20) % 70;
    (from, count.min(from.saturating_add(len)))
}

#[test]
fn changes_one_after_another_are_as_plain_ones(rt: HostRuntime) -> Result<(), Fail> {
    assert!(rt; changes_on::<Brand>(&rt, rt.alloc(), Blank::new(1), 60)?);
    Ok(())
}

// What a list of 10,000 shots of one place each has at its last place and past it; and how many places it has with one
// of three places in place of one in the middle.
fn large<L: Ledger>(
    rt: &impl Abort,
    alloc: Global,
    blank: Blank,
) -> Result<(Option<Found>, Option<Found>, u32), Memory>
    requires { (blank.name ≡ L.name) × (blank.parts ≡ L.parts) × (0 < blank.parts) }
{
    let mut steps = Steps::<L>::new(blank);
    let mut pages = Pages::new(alloc);
    for number in 0..10_000 {
        push_one(rt, &mut pages, Shot { number, len: 1 })?;
    }
    let last = pages.find(9_999, &mut steps);
    let past = pages.find(10_000, &mut steps);
    let longer = Vec::from_slice(alloc, &[Shot { number: 0, len: 3 }])?;
    put(rt, &mut pages, 5_000, 5_001, longer, &mut steps)?;
    Ok((last, past, pages.total()))
}

#[test]
fn a_large_list_is_searched(rt: HostRuntime) -> Result<(), Fail> {
    let (last, past, total) = large::<Brand>(&rt, rt.alloc(), Blank::new(1))?;
    let want = Found {
        index: 9_999,
        from: 9_999,
    };
    assert_eq!(rt; last, Some(want));
    assert_eq!(rt; past, None);
    assert_eq!(rt; total, 10_002);
    Ok(())
}

#[test]
fn a_shot_is_changed_in_one_list_alone(rt: HostRuntime) -> Result<(), Fail> {
    let alloc = rt.alloc();
    let mut pages = Pages::new(alloc);
    push_all(&rt, &mut pages, &shots(alloc, 0, 130)?)?;
    let before = pages.copy(alloc)?;
    for index in [0, 63, 64, 129, 130] {
        renumber(alloc, &mut pages, index, index + 500)?;
    }
    for (index, number) in [(0, 500), (1, 1), (63, 563), (64, 564), (129, 629)] {
        let now = pages.get(index).map(|shot| shot.number);
        let then = before.get(index).map(|shot| shot.number);
        assert_eq!(rt; (now, then), (Some(number), Some(index)), "{index}");
    }
    assert_eq!(rt; pages.get(130), None);
    Ok(())
}

// Gives the last shot another number and length.
fn put_last(rt: &impl Abort, pages: &mut Pages<Shot>, shot: Shot) -> Result<(), Memory> {
    let (count, total) = (pages.count(), pages.total());
    assert!(rt; 0 < count);
    assert!(rt; count < 1_000_000);
    assert!(rt; total < 1_000_000);
    pages.set_last(shot)
}

#[test]
fn the_last_shot_gives_way_to_a_longer_one(rt: HostRuntime) -> Result<(), Fail> {
    let alloc = rt.alloc();
    for count in [1u32, 64, 65, 130] {
        let old = shots(alloc, 4, count)?;
        let mut pages = Pages::new(alloc);
        push_all(&rt, &mut pages, &old)?;
        let (before, total) = (pages.copy(alloc)?, pages.total());
        let last = before.get(count - 1).copied();
        let shot = Shot {
            number: 9000,
            len: 200,
        };
        put_last(&rt, &mut pages, shot)?;
        assert_eq!(rt;
            (pages.count(), pages.get(count - 1).copied()),
            (count, Some(shot))
        );
        assert_eq!(rt; before.get(count - 1).copied(), last, "{count} shots");
        let span = last.map(|shot| shot.span()).unwrap_or(0);
        assert_eq!(rt;
            pages.total(),
            total.saturating_sub(span).saturating_add(200)
        );
    }
    Ok(())
}

// What can be handed to other threads, and seen by several.
fn goes_to_threads<T: Send + Sync>() {}

#[test]
fn a_list_goes_to_threads() {
    goes_to_threads::<Pages<Shot>>();
}
