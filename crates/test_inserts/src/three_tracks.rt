// Worked examples of insert and extract over three tracks, also of linked items.
ghost use Rattle.std.specs.Prelude.{◌≡◌, ◌<◌, [], ◌∷◌, All, IfOk, IfSome};
ghost use Rattle.composables.specs.Good.{IsGood};
ghost use Rattle.composables.specs.OwnTracks.{numbers_of};
ghost use Rattle.composables.specs.TrackSets.{tracks_in};

use composables::{
    Done, EditFault, Extract, Insert, Link3, Memory, Numbers, Refusal, Table, Track,
};
use edit_insert::{extract, insert};
use frame_meaning::What;
use link_groups::link;
use std::alloc::Global;
use std::marker::Brand;
use std::process::Abort;
use std::sync::ledger::{Blank, Ledger};
use std::test::Fail;
use step_count::Steps;
use test_tracks::{all_roomy, clip, laid_track, small_table, told_all};

/// An edit over the tracks 0, 1 and 2: a new item on a track, at a place, of source frames from one on, so many; an
/// item taken out of a track; and an item of each track linked.
#[derive(Clone, Copy, Debug, PartialEq, Eq)]
pub enum OnThree {
    Put(u32, u32, u32, u32),
    Take(u32, u32),
    Tie(u32, u32, u32),
}

/// Three tracks that an edit names.
pub fn three(alloc: Global, a: Track, b: Track, c: Track) -> Result<Vec<Track>, Memory>
    ensures { IfOk result (λ named. named.items ≡ a ∷ b ∷ c ∷ []) }
{
    let mut named = Vec::new(alloc);
    named.push(a)?;
    named.push(b)?;
    named.push(c)?;
    Ok(named)
}

// Stops the test where a track is none of the three.
fn must_be_of_three(rt: &impl Abort, track: u32)
    ensures { track < 3 }
{
    assert!(rt; track < 3);
}

// An insert into a track, over all three.
fn put(track: u32, at: u32, from: u32, len: u32, keep: bool) -> Insert
    ensures tracks { result.tracks ≡ 7 }
    ensures track { result.track ≡ track }
{
    Insert {
        tracks: 7,
        track,
        at,
        what: What::Media(0),
        from,
        len,
        keep,
    }
}

// An extract from a track, over all three.
fn take(track: u32, item: u32, keep: bool) -> Extract
    ensures tracks { result.tracks ≡ 7 }
    ensures track { result.track ≡ track }
{
    Extract {
        tracks: 7,
        track,
        item,
        keep,
    }
}

// A link of an item of each of the three.
fn tie(alloc: Global, items: [u32; 3]) -> Result<Link3, Memory>
    ensures { IfOk result (λ call. call.tracks ≡ 7) }
{
    let items = Numbers::from_vec(Vec::from_slice(alloc, &items)?);
    Ok(Link3 { tracks: 7, items })
}

/// Does an edit over the three tracks. `keep` says whether dissolves are kept as far as there is room for them.
pub fn edit_three<L: Ledger>(
    rt: &impl Abort,
    alloc: Global,
    table: &Table,
    named: &mut Vec<Track>,
    edit: OnThree,
    keep: bool,
    steps: &mut Steps<L>,
) -> Result<Done, EditFault>
    requires named { numbers_of named.old.items ≡ tracks_in 7 }
    requires good { All (λ t. IsGood table.now t) named.old.items }
    ensures named { numbers_of named.new.items ≡ tracks_in 7 }
    ensures good { All (λ t. IsGood table.now t) named.new.items }
{
    assert!(rt; all_roomy(named));
    match edit {
        OnThree::Put(track, at, from, len) => {
            must_be_of_three(rt, track);
            let call = put(track, at, from, len, keep);
            insert(alloc, table, named, &call, steps)
        }
        OnThree::Take(track, item) => {
            must_be_of_three(rt, track);
            extract(alloc, table, named, &take(track, item, keep), steps)
        }
        OnThree::Tie(a, b, c) => match tie(alloc, [a, b, c]) {
            Ok(call) => link(alloc, table, named, &call, steps),
            Err(_) => Err(EditFault::Memory),
        },
    }
}

// Does edits over the three tracks one after another, and gives what the last was answered.
fn edit_all_three<L: Ledger>(
    rt: &impl Abort,
    alloc: Global,
    blank: Blank,
    table: &Table,
    named: &mut Vec<Track>,
    edits: &[OnThree],
) -> Result<Done, EditFault>
    requires blank { (blank.name ≡ L.name) × (blank.parts ≡ L.parts) × (0 < blank.parts) }
    requires named { numbers_of named.old.items ≡ tracks_in 7 }
    requires good { All (λ t. IsGood table.now t) named.old.items }
{
    let mut steps = Steps::<L>::new(blank);
    let mut last = Ok(Done::Plain);
    for edit in edits {
        last = edit_three(rt, alloc, table, named, *edit, false, &mut steps);
    }
    last
}

// A track of one item of so many frames, or of none.
fn start(alloc: Global, table: &Table, number: u32, len: u32) -> Result<Option<Track>, Memory>
    ensures number { IfOk result (λ o. IfSome o (λ t. t.number ≡ number)) }
    ensures good { IfOk result (λ o. IfSome o (λ t. IsGood table.now t)) }
{
    if len == 0 {
        laid_track(alloc, table, number, &[])
    } else {
        laid_track(alloc, table, number, &[clip(0, 0, 0, len)])
    }
}

// The items and gaps of a track as text.
fn shown(alloc: Global, named: &[Track], index: usize) -> Result<String, Memory> {
    match named.get(index) {
        Some(track) => told_all(alloc, &track.items(alloc)?),
        None => Ok(String::new(alloc)),
    }
}

// What edits leave of the three tracks, and what the last was answered.
#[derive(Drop)]
struct Played {
    first: String,
    second: String,
    third: String,
    answer: Result<Done, EditFault>,
}

// Tracks of so many frames, edited one edit after another.
fn play_three(
    rt: &impl Abort,
    alloc: Global,
    lens: [u32; 3],
    edits: &[OnThree],
) -> Result<Option<Played>, Memory> {
    let table = small_table(alloc)?;
    let Some(a) = start(alloc, &table, 0, lens[0])? else {
        return Ok(None);
    };
    let Some(b) = start(alloc, &table, 1, lens[1])? else {
        return Ok(None);
    };
    let Some(c) = start(alloc, &table, 2, lens[2])? else {
        return Ok(None);
    };
    let mut named = three(alloc, a, b, c)?;
    let answer = edit_all_three::<Brand>(rt, alloc, Blank::new(1), &table, &mut named, edits);
    Ok(Some(Played {
        first: shown(alloc, &named, 0)?,
        second: shown(alloc, &named, 1)?,
        third: shown(alloc, &named, 2)?,
        answer,
    }))
}

// Whether edits of three tracks of so many frames leave these items and gaps, and the last is answered so.
fn leave(
    rt: &impl Abort,
    alloc: Global,
    lens: [u32; 3],
    edits: &[OnThree],
    items: [&str; 3],
    last: Result<Done, EditFault>,
) -> Result<bool, Memory> {
    let Some(played) = play_three(rt, alloc, lens, edits)? else {
        return Ok(false);
    };
    Ok(
        played.answer == last
            && played.first.as_str() == items[0]
            && played.second.as_str() == items[1]
            && played.third.as_str() == items[2],
    )
}

// Tracks 1 and 2 begin with items of two and five frames.
#[test]
fn inserts_and_extracts_move_what_is_behind_on_each_track(rt: HostRuntime) -> Result<(), Fail> {
    use OnThree::{Put, Take};
    for (row, edits, items, last) in [
        // an item on another track is cut, a shorter track stays
        (
            0u32,
            [Put(0, 4, 50, 3)].as_slice(),
            [" 0@0+4 1@50+3 2@4+5", " 0@0+2", " 0@0+4 +3 1@4+1"],
            Ok(Done::Item(1)),
        ),
        // the own track is the one that is shorter
        (
            1,
            [Put(1, 4, 50, 3)].as_slice(),
            [" 0@0+4 +3 1@4+5", " 0@0+2 +2 1@50+3", " 0@0+4 +3 1@4+1"],
            Ok(Done::Item(1)),
        ),
        // what was put in is taken out again
        (
            2,
            [Put(0, 3, 50, 4), Take(0, 1)].as_slice(),
            [" 0@0+3 2@3+6", " 0@0+2", " 0@0+3 1@3+2"],
            Ok(Done::Plain),
        ),
        // refusals change nothing
        (
            3,
            [Take(1, 3)].as_slice(),
            [" 0@0+9", " 0@0+2", " 0@0+5"],
            Err(EditFault::Refused(Refusal::NoItem)),
        ),
        (
            4,
            [Put(1, 2_591_999, 0, 2)].as_slice(),
            [" 0@0+9", " 0@0+2", " 0@0+5"],
            Err(EditFault::Refused(Refusal::TooLong(1))),
        ),
    ] {
        assert!(rt;
            leave(&rt, rt.alloc(), [9, 2, 5], edits, items, last)?,
            "row {row}"
        );
    }
    Ok(())
}

// Three items of six frames, linked, and an insert at each of their places.
#[test]
fn an_insert_splits_a_link_where_some_of_it_stays(rt: HostRuntime) -> Result<(), Fail> {
    use OnThree::{Put, Tie};
    for (at, own, other) in [
        (0, " 1@50+2 0@0+6#0", " +2 0@0+6#0"),
        (1, " 0@0+1#0 1@50+2 2@1+5#1", " 0@0+1#0 +2 1@1+5#1"),
        (5, " 0@0+5#0 1@50+2 2@5+1#1", " 0@0+5#0 +2 1@5+1#1"),
        (6, " 0@0+6#0 1@50+2", " 0@0+6#0"),
    ] {
        let edits = [Tie(0, 0, 0), Put(1, at, 50, 2)];
        let items = [other, own, other];
        let last = Ok(Done::Item(1));
        assert!(rt;
            leave(&rt, rt.alloc(), [6, 6, 6], &edits, items, last)?,
            "at {at}"
        );
    }
    Ok(())
}

// Each split gives the next number of the link's home, in the order of the links' numbers.
#[test]
fn links_that_are_split_get_their_numbers_in_order(rt: HostRuntime) -> Result<(), Fail> {
    use OnThree::{Put, Take, Tie};
    for (row, edits, items, last) in [
        // a cut after a cut, and before both
        (
            0u32,
            [
                Tie(0, 0, 0),
                Put(0, 2, 50, 1),
                Put(0, 5, 60, 1),
                Put(0, 1, 70, 1),
            ]
            .as_slice(),
            [
                " 0@0+1#0 5@70+1 6@1+1#3 1@50+1 2@2+2#1 3@60+1 4@4+2#2",
                " 0@0+1#0 +1 3@1+1#3 +1 1@2+2#1 +1 2@4+2#2",
                " 0@0+1#0 +1 3@1+1#3 +1 1@2+2#1 +1 2@4+2#2",
            ],
            Ok(Done::Item(5)),
        ),
        // an item taken out between two parts of a link
        (
            1,
            [Tie(0, 0, 0), Put(0, 2, 50, 1), Take(0, 1)].as_slice(),
            [" 0@0+2#0 2@2+4#1", " 0@0+2#0 1@2+4#1", " 0@0+2#0 1@2+4#1"],
            Ok(Done::Plain),
        ),
    ] {
        assert!(rt;
            leave(&rt, rt.alloc(), [6, 6, 6], edits, items, last)?,
            "row {row}"
        );
    }
    Ok(())
}
