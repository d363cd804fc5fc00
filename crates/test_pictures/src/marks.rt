// Dissolves put at every place of small tracks and taken away, against a plain program over cells.
ghost use Rattle.std.specs.Prelude.{◌≡◌, ◌<◌, [], ◌∷◌, All, map};
ghost use Rattle.composables.specs.Good.{IsGood};
ghost use Rattle.composables.specs.TrackState.{TrackState};

use crate::tracks::{CODES, marked, nest, table};
use composables::{Dissolve, Done, EditFault, ItemView, Refusal, Table, Track, Undissolve, Which};
use dissolves::{dissolve, undissolve};
use frame_meaning::{Cell, Mark, Memory, Side, What, same_item};
use std::alloc::Global;
use std::marker::Brand;
use std::sync::ledger::{Blank, Ledger};
use std::test::Fail;
use step_count::Steps;
use test_tracks::{clip, dissolve as with_dissolve, gap, laid_track};

// A dissolve put at a cut, or taken away.
#[derive(Clone, Copy)]
enum Call {
    Put(Mark),
    Take,
}

// What a call answers, and the cells of the track after it.
fn played<L: Ledger>(
    alloc: Global,
    blank: Blank,
    table: &Table,
    track: Track,
    at: u32,
    call: Call,
) -> Result<(Result<Done, EditFault>, Vec<Cell>), Memory>
    requires blank { (blank.name ≡ L.name) × (blank.parts ≡ L.parts) × (0 < blank.parts) }
    requires good { IsGood table.now track }
{
    let mut steps = Steps::<L>::new(blank);
    let number = track.number();
    let mut named = Vec::new(alloc);
    named.push(track)?;
    let answer = answered(alloc, table, &mut named, number, at, call, &mut steps);
    let cells = match named.first() {
        Some(track) => track.cells(alloc)?,
        None => Vec::new(alloc),
    };
    Ok((answer, cells))
}

// Does a call at a place of the one track that is named.
fn answered<L: Ledger>(
    alloc: Global,
    table: &Table,
    named: &mut Vec<Track>,
    track: u32,
    at: u32,
    call: Call,
    steps: &mut Steps<L>,
) -> Result<Done, EditFault>
    requires named { map (λ (t : TrackState). t.number) named.old.items ≡ track ∷ [] }
    requires good { All (λ t. IsGood table.now t) named.old.items }
{
    match call {
        Call::Put(Mark { a, b }) => {
            let call = Dissolve { track, at, a, b };
            dissolve(alloc, table, named, &call, steps)
        }
        Call::Take => {
            let call = Undissolve { track, at };
            undissolve(alloc, table, named, &call, steps)
        }
    }
}

// Does a call at a place of a copy of a track.
fn tried(
    alloc: Global,
    table: &Table,
    track: &Track,
    at: u32,
    call: Call,
) -> Result<(Result<Done, EditFault>, Vec<Cell>), Memory>
    requires { IsGood table.now track.now }
{
    played::<Brand>(alloc, Blank::new(1), table, track.copy(alloc)?, at, call)
}

// Whether the cells at two places belong to one item, or are both dark.
fn belong(cells: &[Cell], p: usize, q: usize) -> bool {
    match (cells.get(p), cells.get(q)) {
        (Some(c), Some(d)) => same_item(c.item, d.item),
        _ => false,
    }
}

// Whether a place lies in the footprint of a mark at another cut than this one.
fn is_taken(cells: &[Cell], at: usize, q: usize) -> bool {
    for (p, cell) in cells.iter().enumerate() {
        match cell.mark {
            Some(mark) => {
                let begins = p <= q.saturating_add(mark.a as usize);
                if p != at && begins && q < p.saturating_add(mark.b as usize) {
                    return true;
                }
            }
            None => {}
        }
    }
    false
}

// Whether all the places [from, to) belong to what stands at one of the sides of a cut, and no other mark reaches them.
fn are_free(cells: &[Cell], at: usize, from: usize, to: usize, side: usize) -> bool {
    for q in from..to {
        if !belong(cells, q, side) || is_taken(cells, at, q) {
            return false;
        }
    }
    true
}

// Whether a cell's thing is no nest and has this many source frames before the cell's and after it.
fn has_more(table: &Table, cell: Option<&Cell>, before: usize, after: usize) -> bool {
    let Some(cell) = cell else {
        return false;
    };
    match cell.side {
        Side::Dark => true,
        Side::Pic { what, source } => match (what, table.bounds(what)) {
            (What::Media(_), Some((from, to))) => {
                before <= (source as usize).saturating_sub(from as usize)
                    && (source as usize).saturating_add(after) < to as usize
            }
            _ => false,
        },
    }
}

// Why a dissolve is refused, cell by cell.
fn wanted(table: &Table, cells: &[Cell], place: u32, mark: Mark) -> Option<Refusal> {
    let at = place as usize;
    let a = mark.a as usize;
    let b = mark.b as usize;
    if a == 0 && b == 0 {
        return Some(Refusal::EmptyRange);
    }
    if at == 0 || at >= cells.len() || belong(cells, at - 1, at) {
        return Some(Refusal::NotACut(place));
    }
    if a > at
        || !are_free(cells, at, at - a, at, at - 1)
        || !has_more(table, cells.get(at - 1), 0, b)
    {
        return Some(Refusal::DissolveRoom(Which::Left));
    }
    if !are_free(cells, at, at, at + b, at) || !has_more(table, cells.get(at), a, 0) {
        return Some(Refusal::DissolveRoom(Which::Right));
    }
    None
}

// The cells with a mark set at a place.
fn with_mark(
    alloc: Global,
    cells: &[Cell],
    at: usize,
    mark: Option<Mark>,
) -> Result<Vec<Cell>, Memory> {
    let mut all = Vec::new(alloc);
    for (p, cell) in cells.iter().enumerate() {
        let set = if p == at { mark } else { cell.mark };
        all.push(Cell { mark: set, ..*cell })?;
    }
    Ok(all)
}

// Whether a call at a place is refused so, or else leaves this mark there.
fn is_as_wanted(
    alloc: Global,
    table: &Table,
    track: &Track,
    at: u32,
    call: Call,
    refusal: Option<Refusal>,
) -> Result<bool, Memory>
    requires { IsGood table.now track.now }
{
    let cells = track.cells(alloc)?;
    let (answer, after) = tried(alloc, table, track, at, call)?;
    let mark = match call {
        Call::Put(mark) => Some(mark),
        Call::Take => None,
    };
    match refusal {
        Some(why) => {
            let refused = answer == Err(EditFault::Refused(why));
            Ok(refused && after.as_slice() == cells.as_slice())
        }
        None => {
            let want = with_mark(alloc, &cells, at as usize, mark)?;
            Ok(answer == Ok(Done::Plain) && after.as_slice() == want.as_slice())
        }
    }
}

// Whether each dissolve of up to three frames on each side of a place is put there as wanted.
fn are_put(alloc: Global, table: &Table, track: &Track, at: u32) -> Result<bool, Memory>
    requires { IsGood table.now track.now }
{
    let cells = track.cells(alloc)?;
    for code in 0..16 {
        let mark = Mark {
            a: code % 4,
            b: code / 4,
        };
        let refusal = wanted(table, &cells, at, mark);
        if !is_as_wanted(alloc, table, track, at, Call::Put(mark), refusal)? {
            return Ok(false);
        }
    }
    Ok(true)
}

// Whether the dissolve at a place is taken away as wanted.
fn is_taken_away(alloc: Global, table: &Table, track: &Track, at: u32) -> Result<bool, Memory>
    requires { IsGood table.now track.now }
{
    let cells = track.cells(alloc)?;
    let refusal = match cells.get(at as usize) {
        Some(Cell { mark: Some(_), .. }) => None,
        _ => Some(Refusal::NotACut(at)),
    };
    is_as_wanted(alloc, table, track, at, Call::Take, refusal)
}

// The first place of a track where a call is not as wanted.
fn mistake(alloc: Global, table: &Table, track: &Track) -> Result<Option<u32>, Memory>
    requires { IsGood table.now track.now }
{
    for at in 0..track.length().saturating_add(2) {
        if !are_put(alloc, table, track, at)? {
            return Ok(Some(at));
        }
        if !is_taken_away(alloc, table, track, at)? {
            return Ok(Some(at));
        }
    }
    Ok(None)
}

// Of the tracks of three with dissolves of up to two frames on each side of their cuts, how many are edited as wanted
// and how many are not.
fn edited(alloc: Global, items: [ItemView; 3]) -> Result<(u32, u32), Memory> {
    // Few source frames more than the clips show: media 0 has one after the first clip, media 1 one before the second.
    let table = table(alloc, &[(8, 13), (19, 40), (0, 33)])?;
    let mut right = 0_u32;
    let mut wrong = 0_u32;
    for code in 0..CODES {
        match is_right(alloc, &table, &marked(items, code))? {
            Some(true) => right = right.saturating_add(1),
            Some(false) => wrong = wrong.saturating_add(1),
            None => {}
        }
    }
    Ok((right, wrong))
}

// Whether all its edits are as wanted, where there is such a track.
fn is_right(alloc: Global, table: &Table, views: &[ItemView]) -> Result<Option<bool>, Memory> {
    let Some(track) = laid_track(alloc, table, 0, views)? else {
        return Ok(None);
    };
    Ok(Some(mistake(alloc, table, &track)? == None))
}

#[test]
fn dissolves_are_put_where_there_is_room(rt: HostRuntime) -> Result<(), Fail> {
    let rows = [
        (
            [clip(0, 0, 10, 2), clip(1, 1, 20, 3), clip(2, 2, 30, 2)],
            36,
        ),
        ([clip(0, 0, 10, 2), gap(3), clip(1, 2, 15, 2)], 54),
        ([gap(2), clip(5, 1, 20, 3), gap(2)], 48),
        ([gap(5), clip(5, 1, 22, 1), clip(6, 2, 1, 4)], 27),
        ([nest(0, 2), nest(1, 3), clip(2, 1, 30, 2)], 1),
        ([clip(0, 2, 2, 4), clip(1, 2, 6, 4), nest(2, 4)], 9),
    ];
    for (items, want) in rows {
        assert_eq!(rt; edited(rt.alloc(), items)?, (want, 0), "{items:?}");
    }
    Ok(())
}

// The most frames before and after a cut that a dissolve may have for one side of it.
type Room = (u32, u32);

// Whether one side has room for a dissolve.
fn has_room(room: Room, mark: Mark) -> bool {
    mark.a <= room.0 && mark.b <= room.1
}

// Why a dissolve is refused at a cut whose sides have this room.
fn refused_in(left: Room, right: Room, mark: Mark) -> Option<Refusal> {
    if mark.a == 0 && mark.b == 0 {
        return Some(Refusal::EmptyRange);
    }
    if !has_room(left, mark) {
        return Some(Refusal::DissolveRoom(Which::Left));
    }
    if !has_room(right, mark) {
        return Some(Refusal::DissolveRoom(Which::Right));
    }
    None
}

// Whether each dissolve of up to seven frames on each side of the cut is put exactly where its sides have this room.
fn has_exactly(
    alloc: Global,
    views: &[ItemView],
    at: u32,
    left: Room,
    right: Room,
) -> Result<bool, Memory> {
    let table = table(alloc, &[(10, 30), (0, 100)])?;
    let Some(track) = laid_track(alloc, &table, 0, views)? else {
        return Ok(false);
    };
    for code in 0..64 {
        let mark = Mark {
            a: code % 8,
            b: code / 8,
        };
        let refusal = refused_in(left, right, mark);
        if !is_as_wanted(alloc, &table, &track, at, Call::Put(mark), refusal)? {
            return Ok(false);
        }
    }
    Ok(true)
}

#[test]
fn a_dissolve_may_take_all_the_room_there_is(rt: HostRuntime) -> Result<(), Fail> {
    let handles = [clip(0, 0, 11, 16), clip(1, 0, 12, 16)];
    let neighbours = [
        clip(0, 1, 20, 4),
        with_dissolve(1, 2, clip(1, 1, 40, 6)),
        clip(2, 1, 60, 5),
        with_dissolve(3, 1, clip(3, 1, 80, 4)),
    ];
    let fades = [gap(5), clip(0, 0, 12, 6), gap(4)];
    let rows = [
        // three source frames after the first clip, two before the second
        (handles.as_slice(), 16, (16, 3), (2, 16)),
        // the dissolve before takes two of six frames, the one after three of five
        (&neighbours, 10, (4, 7), (7, 2)),
        // beside a gap: from black, and to black
        (&fades, 5, (5, 7), (2, 6)),
        (&fades, 11, (6, 7), (7, 4)),
    ];
    for (views, at, left, right) in rows {
        assert!(rt; has_exactly(rt.alloc(), views, at, left, right)?, "at {at}");
    }
    Ok(())
}

// Whether a dissolve at a place of a track with one cut, that at 10, is answered so.
fn is_answered(alloc: Global, at: u32, want: Option<Refusal>) -> Result<bool, Memory> {
    let table = table(alloc, &[(8, 13), (19, 40)])?;
    let Some(track) = laid_track(alloc, &table, 0, &[gap(10), clip(0, 1, 29, 10)])? else {
        return Ok(false);
    };
    is_as_wanted(
        alloc,
        &table,
        &track,
        at,
        Call::Put(Mark { a: 2, b: 3 }),
        want,
    )
}

#[test]
fn a_dissolve_stands_at_a_cut(rt: HostRuntime) -> Result<(), Fail> {
    let rows = [
        (10, None),
        (0, Some(Refusal::NotACut(0))),
        (9, Some(Refusal::NotACut(9))),
        (20, Some(Refusal::NotACut(20))),
    ];
    for (at, want) in rows {
        assert!(rt; is_answered(rt.alloc(), at, want)?, "dissolve at {at}");
    }
    Ok(())
}
