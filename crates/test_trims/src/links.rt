// Slip of linked items on three tracks by every delta, beside a plain program.
ghost use Rattle.std.specs.Prelude.{◌≡◌, ◌<◌, [], ◌∷◌, All, IfOk, IfSome, nat_eq, true};
ghost use Rattle.std.specs.List.{list_any};
ghost use Rattle.composables.specs.Good.{IsGood};
ghost use Rattle.composables.specs.OwnTracks.{numbers_of};
ghost use Rattle.composables.specs.TrackSets.{tracks_in};

use crate::edits::table;
use crate::plain::{may_slip, slipped};
use composables::{Done, EditFault, Refusal, Slip, Table, Track};
use edit_trim::slip;
use frame_meaning::{Cell, Link, Memory};
use std::alloc::Global;
use std::marker::Brand;
use std::sync::ledger::{Blank, Ledger};
use std::test::Fail;
use step_count::Steps;
use test_tracks::{clip, dissolve, gap, linked, linked_track};

// The link of four items on three tracks.
fn tied() -> Link {
    Link {
        home: 0,
        number: 4,
        tracks: 7,
    }
}

// An item of 4 frames, with 4 source frames before it and after it.
fn first(alloc: Global, table: &Table) -> Result<Option<Track>, Memory>
    ensures number { IfOk result (λ o. IfSome o (λ t. t.number ≡ 0)) }
    ensures good { IfOk result (λ o. IfSome o (λ t. IsGood table.now t)) }
{
    let views = [gap(2), linked(tied(), clip(0, 0, 12, 4)), clip(1, 1, 3, 2)];
    linked_track(alloc, table, 0, &views)
}

// An item with a dissolve at both ends, which leave it 7 source frames before it and 1 after it.
fn second(alloc: Global, table: &Table) -> Result<Option<Track>, Memory>
    ensures number { IfOk result (λ o. IfSome o (λ t. t.number ≡ 1)) }
    ensures good { IfOk result (λ o. IfSome o (λ t. IsGood table.now t)) }
{
    let views = [
        clip(0, 1, 3, 6),
        dissolve(1, 1, linked(tied(), clip(1, 0, 16, 2))),
        dissolve(1, 1, gap(2)),
    ];
    linked_track(alloc, table, 1, &views)
}

// Two items of one link, of which the earlier has 3 source frames before it and the later 2 after it, and an item of
// another link.
fn third(alloc: Global, table: &Table) -> Result<Option<Track>, Memory>
    ensures number { IfOk result (λ o. IfSome o (λ t. t.number ≡ 2)) }
    ensures good { IfOk result (λ o. IfSome o (λ t. IsGood table.now t)) }
{
    let other = Link {
        home: 2,
        number: 4,
        tracks: 4,
    };
    let views = [
        linked(tied(), clip(0, 2, 10, 2)),
        gap(1),
        linked(tied(), clip(1, 2, 13, 3)),
        linked(other, clip(2, 1, 5, 4)),
    ];
    linked_track(alloc, table, 2, &views)
}

// What a slip answers, and the cells of each track after it.
#[derive(Drop, PartialEq, Eq)]
struct Played {
    answer: Result<Done, EditFault>,
    cells: Vec<Vec<Cell>>,
}

/// The cells of each of these tracks.
pub fn cells_of(alloc: Global, named: &[Track]) -> Result<Vec<Vec<Cell>>, Memory> {
    let mut all = Vec::new(alloc);
    for track in named {
        all.push(track.cells(alloc)?)?;
    }
    Ok(all)
}

// Does a slip over these tracks.
fn play<L: Ledger>(
    alloc: Global,
    blank: Blank,
    table: &Table,
    mut named: Vec<Track>,
    call: &Slip,
) -> Result<Played, Memory>
    requires blank { (blank.name ≡ L.name) × (blank.parts ≡ L.parts) × (0 < blank.parts) }
    requires named { numbers_of named.items ≡ tracks_in call.now.tracks }
    requires own { list_any (nat_eq call.now.track) (tracks_in call.now.tracks) ≡ true }
    requires good { All (λ t. IsGood table.now t) named.items }
{
    let mut steps = Steps::<L>::new(blank);
    let answer = slip(alloc, table, &mut named, call, &mut steps);
    let cells = cells_of(alloc, &named)?;
    Ok(Played { answer, cells })
}

// What a slip answers and the cells after it, by the plain program, where all tracks of the link are named.
fn plainly(alloc: Global, tracks: &[Vec<Cell>], item: u32, by: i32) -> Result<Played, Memory> {
    let mut own = None;
    for cells in tracks {
        own = cells.iter().find(|cell| cell.item == Some(item)).copied();
    }
    let mut all = Vec::new(alloc);
    let Some(own) = own else {
        for cells in tracks {
            all.push(Vec::from_slice(alloc, cells)?)?;
        }
        let answer = Err(EditFault::Refused(Refusal::NoItem));
        return Ok(Played { answer, cells: all });
    };
    let used = used_on_all(&own, tracks, i64::from(by));
    for cells in tracks {
        all.push(slipped(alloc, &own, cells, used)?)?;
    }
    let answer = Ok(Done::By(i32::try_from(used).unwrap_or(0)));
    Ok(Played { answer, cells: all })
}

// The delta used by a slip of the cells that go with this one on all tracks.
fn used_on_all(own: &Cell, tracks: &[Vec<Cell>], by: i64) -> i64 {
    let mut nearest = 0;
    for frames in 1..40 {
        let delta = if by < 0 {
            0i64.saturating_sub(frames)
        } else {
            frames
        };
        if frames <= by.saturating_abs() && suits_all(own, tracks, delta) {
            nearest = delta;
        }
    }
    nearest
}

// Whether a delta suits what goes with this cell on all tracks.
fn suits_all(own: &Cell, tracks: &[Vec<Cell>], by: i64) -> bool {
    for cells in tracks {
        if !may_slip(own, cells, by) {
            return false;
        }
    }
    true
}

// The three tracks.
fn three(alloc: Global, table: &Table) -> Result<Option<Vec<Track>>, Memory>
    ensures numbers { IfOk result (λ o. IfSome o (λ v. numbers_of v.items ≡ 0 ∷ 1 ∷ 2 ∷ [])) }
    ensures good { IfOk result (λ o. IfSome o (λ v. All (λ t. IsGood table.now t) v.items)) }
{
    let Some(mut named) = two(alloc, table)? else {
        return Ok(None);
    };
    let Some(third) = third(alloc, table)? else {
        return Ok(None);
    };
    named.push(third)?;
    Ok(Some(named))
}

// The first two of them.
fn two(alloc: Global, table: &Table) -> Result<Option<Vec<Track>>, Memory>
    ensures numbers { IfOk result (λ o. IfSome o (λ v. numbers_of v.items ≡ 0 ∷ 1 ∷ [])) }
    ensures good { IfOk result (λ o. IfSome o (λ v. All (λ t. IsGood table.now t) v.items)) }
{
    let Some(first) = first(alloc, table)? else {
        return Ok(None);
    };
    let Some(second) = second(alloc, table)? else {
        return Ok(None);
    };
    let mut named = Vec::new(alloc);
    named.push(first)?;
    named.push(second)?;
    Ok(Some(named))
}

// The cells of each track before a slip of an item of the third, what the slip answers, and the cells after it.
#[derive(Drop)]
struct Slipped {
    before: Vec<Vec<Cell>>,
    played: Played,
}

// A slip of an item of the third track, over all three, with the cells before it.
fn slipped_on_third(alloc: Global, item: u32, by: i32) -> Result<Option<Slipped>, Memory> {
    let table = table(alloc)?;
    let Some(named) = three(alloc, &table)? else {
        return Ok(None);
    };
    let before = cells_of(alloc, &named)?;
    let call = Slip {
        tracks: 7,
        track: 2,
        item,
        by,
    };
    let played = play::<Brand>(alloc, Blank::new(1), &table, named, &call)?;
    Ok(Some(Slipped { before, played }))
}

// Whether a slip of an item of the third track does what the plain program says.
fn agrees(alloc: Global, item: u32, by: i32) -> Result<bool, Memory> {
    let Some(all) = slipped_on_third(alloc, item, by)? else {
        return Ok(false);
    };
    let want = plainly(alloc, &all.before, item, by)?;
    Ok(all.played == want)
}

// The first delta by which a slip of an item does something else than the plain program.
fn difference(alloc: Global, item: u32) -> Result<Option<i32>, Memory> {
    for by in -12..13 {
        if !agrees(alloc, item, by)? {
            return Ok(Some(by));
        }
    }
    for by in [i32::MIN, i32::MAX] {
        if !agrees(alloc, item, by)? {
            return Ok(Some(by));
        }
    }
    Ok(None)
}

#[test]
fn linked_items_slip_by_one_delta_that_suits_all(rt: HostRuntime) -> Result<(), Fail> {
    for item in 0..4 {
        assert_eq!(rt; difference(rt.alloc(), item)?, None, "slip of item {item}");
    }
    Ok(())
}

// The second track's dissolve ends it later, and the third track's first item earlier.
#[test]
fn a_link_slips_as_far_as_its_shortest_handle(rt: HostRuntime) -> Result<(), Fail> {
    for (item, by, used) in [
        (0, 12, 1),
        (0, -12, -3),
        (1, i32::MAX, 1),
        (1, i32::MIN, -3),
    ] {
        let all = slipped_on_third(rt.alloc(), item, by)?.ok_or("these can be laid")?;
        assert_eq!(rt;
            all.played.answer,
            Ok(Done::By(used)),
            "item {item} by {by}"
        );
    }
    Ok(())
}

// What a slip of the item of the first track answers where two of its three tracks are named.
fn with_two(alloc: Global, by: i32) -> Result<Option<Result<Done, EditFault>>, Memory> {
    let table = table(alloc)?;
    let Some(named) = two(alloc, &table)? else {
        return Ok(None);
    };
    let call = Slip {
        tracks: 3,
        track: 0,
        item: 0,
        by,
    };
    let played = play::<Brand>(alloc, Blank::new(1), &table, named, &call)?;
    Ok(Some(played.answer))
}

#[test]
fn a_slip_names_all_tracks_of_a_link(rt: HostRuntime) -> Result<(), Fail> {
    let refusal = Refusal::LinkOutside {
        home: 0,
        number: 4,
        track: 2,
    };
    for by in [0, 1, -12] {
        let answer = with_two(rt.alloc(), by)?;
        assert_eq!(rt; answer, Some(Err(EditFault::Refused(refusal))), "by {by}");
    }
    Ok(())
}
