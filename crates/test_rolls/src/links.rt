// Slide of linked items: it is refused where the item would move away from what else has its link.
ghost use Rattle.std.specs.Prelude.{◌≡◌, ◌<◌, IfOk, IfSome};
ghost use Rattle.composables.specs.Good.{IsGood};
ghost use Rattle.composables.specs.Roomy.{IsRoomy};

use crate::edits::table;
use composables::{Done, EditFault, Refusal, Slide, Table, Track};
use edit_roll::slide;
use frame_meaning::{Cell, Link, Memory};
use std::alloc::Global;
use std::marker::Brand;
use std::sync::ledger::{Blank, Ledger};
use std::test::Fail;
use step_count::Steps;
use test_tracks::{clip, gap, linked, linked_track};

// A link of track 0 with this number and these tracks.
fn link(number: u32, tracks: u32) -> Link {
    Link {
        home: 0,
        number,
        tracks,
    }
}

// Items 1 and 2 were one, and have one link; the link of item 3 has another track; item 4 has a link of its own.
fn track(alloc: Global, table: &Table) -> Result<Option<Track>, Memory>
    ensures number { IfOk result (λ o. IfSome o (λ t. t.number ≡ 0)) }
    ensures good { IfOk result (λ o. IfSome o (λ t. IsGood table.now t)) }
    ensures roomy { IfOk result (λ o. IfSome o (λ t. IsRoomy t)) }
{
    let views = [
        clip(0, 1, 50, 4),
        linked(link(4, 1), clip(1, 1, 100, 4)),
        linked(link(4, 1), clip(2, 1, 104, 3)),
        linked(link(5, 3), clip(3, 1, 200, 4)),
        gap(3),
        linked(link(6, 1), clip(4, 1, 300, 2)),
        clip(5, 1, 400, 5),
    ];
    linked_track(alloc, table, 0, &views)
}

// What a slide answers, and the cells of the track after it.
#[derive(Drop)]
struct Played {
    answer: Result<Done, EditFault>,
    cells: Vec<Cell>,
}

// Does a slide of an item of track 0.
fn play<L: Ledger>(
    alloc: Global,
    blank: Blank,
    table: &Table,
    track: Track,
    item: u32,
    by: i32,
) -> Result<Played, Memory>
    requires blank { (blank.name ≡ L.name) × (blank.parts ≡ L.parts) × (0 < blank.parts) }
    requires number { track.number ≡ 0 }
    requires good { IsGood table.now track }
    requires roomy { IsRoomy track }
{
    let mut steps = Steps::<L>::new(blank);
    let mut named = Vec::new(alloc);
    named.push(track)?;
    let call = Slide {
        tracks: 1,
        track: 0,
        item,
        by,
    };
    let answer = slide(alloc, table, &mut named, &call, &mut steps);
    let cells = match named.first() {
        Some(track) => track.cells(alloc)?,
        None => Vec::new(alloc),
    };
    Ok(Played { answer, cells })
}

// What a slide of an item of that track answers, and whether it left the track as it was.
fn slid(
    alloc: Global,
    item: u32,
    by: i32,
) -> Result<Option<(Result<Done, EditFault>, bool)>, Memory> {
    let table = table(alloc)?;
    let Some(track) = track(alloc, &table)? else {
        return Ok(None);
    };
    let before = track.cells(alloc)?;
    let played = play::<Brand>(alloc, Blank::new(1), &table, track, item, by)?;
    Ok(Some((played.answer, played.cells == before)))
}

#[test]
fn an_item_stays_with_what_else_has_its_link(rt: HostRuntime) -> Result<(), Fail> {
    for (item, by, old, new) in [
        (1, 1, -96, -95),
        (1, 9, -96, -94),
        (1, -1, -96, -97),
        (1, i32::MIN, -96, -99),
        (2, 3, -96, -93),
    ] {
        let broken = Refusal::LinkBroken {
            home: 0,
            number: 4,
            old,
            new,
        };
        let want = Some((Err(EditFault::Refused(broken)), true));
        assert_eq!(rt; slid(rt.alloc(), item, by)?, want, "item {item} by {by}");
    }
    Ok(())
}

#[test]
fn a_slide_by_nothing_breaks_no_link(rt: HostRuntime) -> Result<(), Fail> {
    for item in [1, 2, 4] {
        let want = Some((Ok(Done::By(0)), true));
        assert_eq!(rt; slid(rt.alloc(), item, 0)?, want, "item {item}");
    }
    Ok(())
}

#[test]
fn an_item_with_a_link_of_its_own_slides(rt: HostRuntime) -> Result<(), Fail> {
    for (by, used) in [(1, 1), (9, 4), (-9, -2)] {
        let want = Some((Ok(Done::By(used)), false));
        assert_eq!(rt; slid(rt.alloc(), 4, by)?, want, "by {by}");
    }
    Ok(())
}

#[test]
fn a_slide_names_all_tracks_of_a_link(rt: HostRuntime) -> Result<(), Fail> {
    let outside = Refusal::LinkOutside {
        home: 0,
        number: 5,
        track: 1,
    };
    for by in [0, 1, -1] {
        let want = Some((Err(EditFault::Refused(outside)), true));
        assert_eq!(rt; slid(rt.alloc(), 3, by)?, want, "by {by}");
    }
    Ok(())
}
