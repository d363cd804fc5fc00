// Inserts among the links of many items, at the borders of pages and of blocks and within them, beside what a plain program
// says of each link. A page holds 64 items, each of two frames here, and a block 16 pages or 32, so that two pages may meet
// at the frame 128, and two blocks at the frames 2,048 and 4,096.
ghost use Rattle.std.specs.Prelude.{◌≡◌, ◌<◌, All, IfOk, IfSome};
ghost use Rattle.composables.specs.Good.{IsGood};
ghost use Rattle.composables.specs.OwnTracks.{numbers_of};
ghost use Rattle.composables.specs.TrackSets.{tracks_in};

use crate::three_tracks::{OnThree, edit_three, three};
use composables::{Done, EditFault, Memory, Table, Track};
use frame_meaning::Link;
use std::alloc::Global;
use std::marker::Brand;
use std::process::Abort;
use std::sync::ledger::{Blank, Ledger};
use std::test::Fail;
use step_count::Steps;
use test_tracks::{clip, laid_track, small_table};

// How many items each track has, and how many further on the links of track 2 are.
#[derive(Clone, Copy)]
struct Laid {
    count: u32,
    further: u32,
}

// The link of the item with an index on a track: that of its index, but on track 2 one so many further.
fn link_at(laid: Laid, track: u32, index: u32) -> u32 {
    if track == 2 {
        around(laid, index.wrapping_add(laid.further))
    } else {
        index
    }
}

// The index of the item of track 2 with this link.
fn index_of(laid: Laid, link: u32) -> u32 {
    around(
        laid,
        link.wrapping_add(laid.count.wrapping_sub(laid.further)),
    )
}

// An index past the last, counted on from the first.
fn around(laid: Laid, index: u32) -> u32 {
    if index < laid.count {
        index
    } else {
        index.wrapping_sub(laid.count)
    }
}

// The track with this number. Its items have one offset.
fn start(alloc: Global, table: &Table, laid: Laid, track: u32) -> Result<Option<Track>, Memory>
    ensures number { IfOk result (λ o. IfSome o (λ t. t.number ≡ track)) }
    ensures good { IfOk result (λ o. IfSome o (λ t. IsGood table.now t)) }
{
    let mut views = Vec::new(alloc);
    for index in 0..laid.count {
        views.push(clip(index, 0, index.wrapping_mul(2), 2))?;
    }
    laid_track(alloc, table, track, views.as_slice())
}

// Links the items, and puts one of one frame into track 1.
fn put_in<L: Ledger>(
    rt: &impl Abort,
    alloc: Global,
    blank: Blank,
    table: &Table,
    named: &mut Vec<Track>,
    laid: Laid,
    at: u32,
) -> Result<Done, EditFault>
    requires blank { (blank.name ≡ L.name) × (blank.parts ≡ L.parts) × (0 < blank.parts) }
    requires named { numbers_of named.old.items ≡ tracks_in 7 }
    requires good { All (λ t. IsGood table.now t) named.old.items }
{
    let mut steps = Steps::<L>::new(blank);
    for link in 0..laid.count {
        let edit = OnThree::Tie(link, link, index_of(laid, link));
        edit_three(rt, alloc, table, named, edit, false, &mut steps)?;
    }
    let edit = OnThree::Put(1, at, 500, 1);
    edit_three(rt, alloc, table, named, edit, false, &mut steps)
}

// The three tracks after an item was put in at a place.
fn played(
    rt: &impl Abort,
    alloc: Global,
    laid: Laid,
    at: u32,
) -> Result<Option<Vec<Track>>, Memory> {
    let table = small_table(alloc)?;
    let Some(a) = start(alloc, &table, laid, 0)? else {
        return Ok(None);
    };
    let Some(b) = start(alloc, &table, laid, 1)? else {
        return Ok(None);
    };
    let Some(c) = start(alloc, &table, laid, 2)? else {
        return Ok(None);
    };
    let mut named = three(alloc, a, b, c)?;
    match put_in::<Brand>(rt, alloc, Blank::new(1), &table, &mut named, laid, at) {
        Ok(_) => Ok(Some(named)),
        Err(_) => Ok(None),
    }
}

// Whether an item with this link begins before a place, and whether one ends past it.
fn stands_on_both_sides(laid: Laid, link: u32, at: u32) -> bool {
    let other = index_of(laid, link);
    let before = begins_before(link, at) || begins_before(other, at);
    before && (ends_after(link, at) || ends_after(other, at))
}

// Whether the item with an index begins before a place.
fn begins_before(index: u32, at: u32) -> bool {
    index.wrapping_mul(2) < at
}

// Whether it ends after it.
fn ends_after(index: u32, at: u32) -> bool {
    at < index.wrapping_mul(2).wrapping_add(2)
}

// The number of each link where it is moved: a new one where some of it stays.
fn numbers_after(alloc: Global, laid: Laid, at: u32) -> Result<Vec<u32>, Memory> {
    let mut numbers = Vec::new(alloc);
    let mut next = laid.count;
    for link in 0..laid.count {
        if stands_on_both_sides(laid, link, at) {
            numbers.push(next)?;
            next = next.wrapping_add(1);
        } else {
            numbers.push(link)?;
        }
    }
    Ok(numbers)
}

// The links that the items of a track have then, and none for what is put in.
fn links_after(
    alloc: Global,
    laid: Laid,
    track: u32,
    at: u32,
    numbers: &[u32],
) -> Result<Vec<Option<u32>>, Memory> {
    let mut links = Vec::new(alloc);
    for index in 0..laid.count {
        let link = link_at(laid, track, index);
        let begin = index.wrapping_mul(2);
        if begin == at {
            links.push(None)?;
        }
        if begins_before(index, at) {
            links.push(Some(link))?;
        }
        if begin.wrapping_add(1) == at {
            links.push(None)?;
        }
        if ends_after(index, at) {
            links.push(numbers.get(link as usize).copied())?;
        }
    }
    Ok(links)
}

// The links that they have.
fn links_of(alloc: Global, track: &Track) -> Result<Vec<Option<u32>>, Memory> {
    let mut links = Vec::new(alloc);
    for index in 0..track.count() {
        match track.item(index) {
            Some(view) => links.push(number_of(view.link))?,
            None => {}
        }
    }
    Ok(links)
}

// The number of a link.
fn number_of(link: Option<Link>) -> Option<u32> {
    match link {
        Some(link) => Some(link.number),
        None => None,
    }
}

// Whether a track has the links that the plain program says.
fn track_agrees(
    alloc: Global,
    named: &[Track],
    laid: Laid,
    index: u32,
    at: u32,
    numbers: &[u32],
) -> Result<bool, Memory> {
    let wanted = links_after(alloc, laid, index, at, numbers)?;
    match named.get(index as usize) {
        Some(track) => {
            let links = links_of(alloc, track)?;
            Ok(links.as_slice() == wanted.as_slice())
        }
        None => Ok(false),
    }
}

// Whether the three tracks have them after an item was put in at a place.
fn agrees(rt: &impl Abort, alloc: Global, laid: Laid, at: u32) -> Result<bool, Memory> {
    let Some(named) = played(rt, alloc, laid, at)? else {
        return Ok(false);
    };
    let numbers = numbers_after(alloc, laid, at)?;
    let mut agree = true;
    for index in 0..3 {
        agree &= track_agrees(alloc, &named, laid, index, at, &numbers)?;
    }
    Ok(agree)
}

// The places are those of two pages that meet, the frames beside them, and others.
const PLACES: [u32; 16] = [
    0, 1, 2, 63, 64, 127, 128, 129, 130, 255, 256, 257, 383, 384, 385, 399,
];

// With each item linked to those of its index alone no link is split at a cut, and one within an item; where the links
// of one track are further on, many are.
#[test]
fn an_insert_splits_links_at_the_borders_of_pages(rt: HostRuntime) -> Result<(), Fail> {
    let count = 200;
    for further in [0, 1, 64, 137] {
        for at in PLACES {
            let laid = Laid { count, further };
            assert!(rt;
                agrees(&rt, rt.alloc(), laid, at)?,
                "{further} further at {at}"
            );
        }
    }
    Ok(())
}

// The same where two blocks of pages meet. All links of track 2 are on the other side, or few.
#[test]
fn an_insert_splits_links_at_the_borders_of_blocks(rt: HostRuntime) -> Result<(), Fail> {
    let count = 2_176;
    for (further, at) in [(1_100, 2_048), (3, 2_047), (1_088, 4_097)] {
        let laid = Laid { count, further };
        assert!(rt;
            agrees(&rt, rt.alloc(), laid, at)?,
            "{further} further at {at}"
        );
    }
    Ok(())
}
