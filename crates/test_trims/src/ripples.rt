// Ripple of every item by every delta on two tracks, beside a plain program; and of linked items.
ghost use Rattle.std.specs.Prelude.{◌≡◌, ◌<◌, [], ◌∷◌, All, IfOk, IfSome, nat_eq, true};
ghost use Rattle.std.specs.List.{list_any};
ghost use Rattle.composables.specs.Good.{IsGood};
ghost use Rattle.composables.specs.OwnTracks.{numbers_of};
ghost use Rattle.composables.specs.Roomy.{IsRoomy};
ghost use Rattle.composables.specs.TrackSets.{tracks_in};

use crate::edits::table;
use crate::links::cells_of;
use crate::plain::{range, ripple_used, rippled, shift, shifted};
use composables::{Done, EditFault, End, ItemView, Refusal, Ripple, Table, Track};
use edit_trim::ripple;
use frame_meaning::{Cell, Link, Memory};
use std::alloc::Global;
use std::marker::Brand;
use std::sync::ledger::{Blank, Ledger};
use std::test::Fail;
use step_count::Steps;
use test_tracks::{clip, dissolve, gap, linked, linked_track};

// Two tracks of these items and gaps, if there are such tracks.
fn pair(
    alloc: Global,
    table: &Table,
    first: &[ItemView],
    second: &[ItemView],
) -> Result<Option<Vec<Track>>, Memory>
    ensures numbers { IfOk result (λ o. IfSome o (λ v. numbers_of v.items ≡ 0 ∷ 1 ∷ [])) }
    ensures good { IfOk result (λ o. IfSome o (λ v. All (λ t. IsGood table.now t) v.items)) }
    ensures roomy { IfOk result (λ o. IfSome o (λ v. All (λ t. IsRoomy t) v.items)) }
{
    let Some(first) = linked_track(alloc, table, 0, first)? else {
        return Ok(None);
    };
    let Some(second) = linked_track(alloc, table, 1, second)? else {
        return Ok(None);
    };
    let mut named = Vec::new(alloc);
    named.push(first)?;
    named.push(second)?;
    Ok(Some(named))
}

// What a ripple answers, and the tracks after it.
#[derive(Drop)]
struct Played {
    answer: Result<Done, EditFault>,
    named: Vec<Track>,
}

// Does a ripple over these tracks.
fn play<L: Ledger>(
    alloc: Global,
    blank: Blank,
    table: &Table,
    mut named: Vec<Track>,
    call: &Ripple,
) -> Played
    requires blank { (blank.name ≡ L.name) × (blank.parts ≡ L.parts) × (0 < blank.parts) }
    requires named { numbers_of named.items ≡ tracks_in call.now.tracks }
    requires own { list_any (nat_eq call.now.track) (tracks_in call.now.tracks) ≡ true }
    requires good { All (λ t. IsGood table.now t) named.items }
    requires roomy { All (λ t. IsRoomy t) named.items }
{
    let mut steps = Steps::<L>::new(blank);
    let answer = ripple(alloc, table, &mut named, call, &mut steps);
    Played { answer, named }
}

// A ripple of an item of the first track, on both.
fn tried(
    alloc: Global,
    first: &[ItemView],
    second: &[ItemView],
    item: u32,
    end: End,
    by: i32,
) -> Result<Option<Played>, Memory> {
    let table = table(alloc)?;
    let Some(named) = pair(alloc, &table, first, second)? else {
        return Ok(None);
    };
    let call = Ripple {
        tracks: 3,
        track: 0,
        item,
        end,
        by,
    };
    let played = play::<Brand>(alloc, Blank::new(1), &table, named, &call);
    Ok(Some(played))
}

// Items of short media and gaps, with dissolves, on both tracks.
fn own_views() -> [ItemView; 5] {
    [
        gap(3),
        clip(0, 0, 10, 5),
        dissolve(1, 1, clip(1, 0, 11, 6)),
        dissolve(1, 2, gap(4)),
        clip(2, 0, 9, 3),
    ]
}

// Items and gaps of the second track, with a dissolve of its own.
fn other_views() -> [ItemView; 4] {
    [
        clip(0, 1, 2, 6),
        dissolve(1, 1, clip(1, 1, 9, 5)),
        gap(2),
        clip(2, 1, 4, 4),
    ]
}

// The cells of each track before a ripple.
fn cells_before(alloc: Global) -> Result<Option<Vec<Vec<Cell>>>, Memory> {
    let table = table(alloc)?;
    match pair(alloc, &table, &own_views(), &other_views())? {
        Some(named) => Ok(Some(cells_of(alloc, &named)?)),
        None => Ok(None),
    }
}

// Whether the ripple of an item of the first track leaves on both tracks what the plain program says.
fn agrees(alloc: Global, item: u32, end: End, by: i32) -> Result<bool, Memory> {
    let Some(before) = cells_before(alloc)? else {
        return Ok(false);
    };
    let Some(played) = tried(alloc, &own_views(), &other_views(), item, end, by)? else {
        return Ok(false);
    };
    let after = cells_of(alloc, &played.named)?;
    let (Some(own), Some(other)) = (before.first(), before.get(1)) else {
        return Ok(false);
    };
    let (x, y) = range(own, item);
    if x == y {
        let refused = Err(EditFault::Refused(Refusal::NoItem));
        return Ok(played.answer == refused && after == before);
    }
    let used = ripple_used(own, x, y, end, i64::from(by));
    let done = Ok(Done::By(i32::try_from(used).unwrap_or(0)));
    if used == 0 {
        return Ok(played.answer == done && after == before);
    }
    let mut want = Vec::new(alloc);
    want.push(rippled(alloc, own, x, y, end, used)?)?;
    want.push(shifted(alloc, other, shift(x, y, end, used), 3)?)?;
    Ok(played.answer == done && after == want)
}

// The first delta by which a ripple of an item does something else than the plain program.
fn difference(alloc: Global, item: u32, end: End) -> Result<Option<i32>, Memory> {
    for by in -12..13 {
        if !agrees(alloc, item, end, by)? {
            return Ok(Some(by));
        }
    }
    for by in [i32::MIN, i32::MAX] {
        if !agrees(alloc, item, end, by)? {
            return Ok(Some(by));
        }
    }
    Ok(None)
}

#[test]
fn ripples_by_every_delta_agree_with_a_plain_program(rt: HostRuntime) -> Result<(), Fail> {
    for item in 0..4 {
        let head = difference(rt.alloc(), item, End::Head)?;
        assert_eq!(rt; head, None, "head of item {item}");
        let tail = difference(rt.alloc(), item, End::Tail)?;
        assert_eq!(rt; tail, None, "tail of item {item}");
    }
    Ok(())
}

// What a ripple of the tail of an item of 10 frames answers, where there are gaps of these lengths before it on the
// first track, and before another such item on the second.
fn beyond(
    alloc: Global,
    own: u32,
    other: u32,
    by: i32,
) -> Result<Option<Result<Done, EditFault>>, Memory> {
    let first = [gap(own), clip(0, 1, 0, 10)];
    let second = [gap(other), clip(0, 1, 0, 10)];
    match tried(alloc, &first, &second, 0, End::Tail, by)? {
        Some(played) => Ok(Some(played.answer)),
        None => Ok(None),
    }
}

// A track has at most 2,592,000 frames.
#[test]
fn no_named_track_becomes_too_long(rt: HostRuntime) -> Result<(), Fail> {
    for (own, other, by, used) in [
        (2_591_990, 10, 3, 0),
        (2_591_988, 10, 3, 2),
        (10, 2_591_990, 1, 0),
        (2_591_000, 2_591_983, 20, 7),
        (2_591_000, 2_590_989, 20, 20),
    ] {
        let answer = beyond(rt.alloc(), own, other, by)?;
        assert_eq!(rt;
            answer,
            Some(Ok(Done::By(used))),
            "{own} and {other} by {by}"
        );
    }
    Ok(())
}

// What a ripple of the item [3, 7) of the first track by a delta answers, and then the numbers of the links of that item
// and of its partner, which stands on the second track from a place on and has a length and the same offset.
#[derive(Drop)]
struct Split {
    answer: Result<Done, EditFault>,
    own: Option<u32>,
    last: Option<u32>,
}

// The number of an item's link, if it has one.
fn link_number(view: Option<ItemView>) -> Option<u32> {
    Some(view?.link?.number)
}

// A ripple of the linked item of the first track, whose partner stands at `at` and has `len` frames.
fn split_by(alloc: Global, at: u32, len: u32, end: End, by: i32) -> Result<Option<Split>, Memory> {
    let tied = Link {
        home: 0,
        number: 4,
        tracks: 3,
    };
    let first = [gap(3), linked(tied, clip(0, 0, 10, 4))];
    let second = [gap(at), linked(tied, clip(0, 0, at.saturating_add(7), len))];
    let Some(played) = tried(alloc, &first, &second, 0, end, by)? else {
        return Ok(None);
    };
    let (Some(first), Some(second)) = (played.named.first(), played.named.get(1)) else {
        return Ok(None);
    };
    Ok(Some(Split {
        answer: played.answer,
        own: link_number(first.item(1)),
        last: link_number(second.item(second.count().saturating_sub(1))),
    }))
}

// The partner stands before the item, at it, after it or around it.
#[test]
fn a_ripple_splits_a_link_where_some_of_it_stays(rt: HostRuntime) -> Result<(), Fail> {
    for (at, len, end, by, own, last) in [
        // the head moves with all of its item: what stays is before it
        (1, 2, End::Head, -2, 0, 4),
        (3, 4, End::Head, -2, 4, 4),
        (9, 4, End::Head, -2, 4, 4),
        (1, 9, End::Head, -2, 0, 0),
        // the tail moves what is after its item, which stays
        (1, 2, End::Tail, 2, 4, 4),
        (3, 4, End::Tail, -2, 4, 4),
        (9, 4, End::Tail, 2, 4, 0),
        (1, 9, End::Tail, 2, 4, 0),
    ] {
        let split = split_by(rt.alloc(), at, len, end, by)?.ok_or("these can be laid")?;
        assert_eq!(rt;
            split.answer,
            Ok(Done::By(by)),
            "{end:?} by {by}, {len} from {at} on"
        );
        assert_eq!(rt; split.own, Some(own), "{end:?} by {by}, {len} from {at} on");
        assert_eq!(rt;
            split.last,
            Some(last),
            "{end:?} by {by}, {len} from {at} on"
        );
    }
    Ok(())
}

#[test]
fn a_ripple_that_moves_a_link_to_other_tracks_is_refused(rt: HostRuntime) -> Result<(), Fail> {
    let wide = Link {
        home: 1,
        number: 2,
        tracks: 14,
    };
    let first = [clip(0, 0, 10, 4)];
    let second = [gap(4), linked(wide, clip(0, 0, 16, 4))];
    let played = tried(rt.alloc(), &first, &second, 0, End::Tail, 1)?.ok_or("laid")?;
    let outside = Refusal::LinkOutside {
        home: 1,
        number: 2,
        track: 2,
    };
    assert_eq!(rt; played.answer, Err(EditFault::Refused(outside)));
    Ok(())
}
