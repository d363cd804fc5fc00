// Inserts and extracts over three tracks with dissolves, which they keep or not, beside the plain program.
ghost use Rattle.std.specs.Prelude.{◌≡◌, ◌<◌, All, IfOk, IfSome};
ghost use Rattle.composables.specs.Good.{IsGood};
ghost use Rattle.composables.specs.OwnTracks.{numbers_of};
ghost use Rattle.composables.specs.TrackSets.{tracks_in};

use crate::edits::{Edit, dissolved, with_mark};
use crate::plain::{plainly, plainly_beside};
use crate::three_tracks::{OnThree, edit_three, three};
use composables::{Memory, Table, Track};
use frame_meaning::Cell;
use std::alloc::Global;
use std::marker::Brand;
use std::process::Abort;
use std::sync::ledger::{Blank, Ledger};
use std::test::Fail;
use step_count::Steps;
use test_tracks::{clip, laid_track, small_table};

// The dissolves of two tracks of 14 frames, at their places 4, 7 and 10, and of one of five frames, at its place 2.
#[derive(Clone, Copy, Debug, PartialEq, Eq)]
struct Row {
    first: [(u32, u32); 3],
    second: [(u32, u32); 3],
    third: (u32, u32),
}

const ROWS: [Row; 6] = [
    Row {
        first: [(1, 1), (1, 2), (1, 1)],
        second: [(4, 3), (0, 3), (0, 4)],
        third: (2, 3),
    },
    Row {
        first: [(4, 0), (3, 0), (3, 4)],
        second: [(2, 1), (2, 1), (2, 2)],
        third: (1, 1),
    },
    Row {
        first: [(2, 2), (1, 2), (1, 2)],
        second: [(4, 0), (3, 0), (3, 4)],
        third: (0, 3),
    },
    Row {
        first: [(3, 1), (2, 3), (0, 3)],
        second: [(1, 3), (0, 2), (1, 4)],
        third: (2, 0),
    },
    Row {
        first: [(0, 0), (3, 3), (0, 0)],
        second: [(3, 2), (1, 0), (3, 1)],
        third: (2, 1),
    },
    Row {
        first: [(4, 3), (0, 3), (0, 4)],
        second: [(0, 0), (0, 0), (0, 0)],
        third: (1, 2),
    },
];

// Items of two and three frames with this dissolve at the cut between them.
fn short(alloc: Global, table: &Table, mark: (u32, u32)) -> Result<Option<Track>, Memory>
    ensures number { IfOk result (λ o. IfSome o (λ t. t.number ≡ 2)) }
    ensures good { IfOk result (λ o. IfSome o (λ t. IsGood table.now t)) }
{
    let views = [clip(0, 0, 50, 2), with_mark(mark, clip(1, 0, 90, 3))];
    laid_track(alloc, table, 2, &views)
}

// The cells of each track.
#[derive(Drop, PartialEq)]
struct Shown {
    first: Vec<Cell>,
    second: Vec<Cell>,
    third: Vec<Cell>,
}

// The cells of the track at an index; none where there is no such track.
fn cells_at(alloc: Global, named: &[Track], index: usize) -> Result<Vec<Cell>, Memory> {
    match named.get(index) {
        Some(track) => track.cells(alloc),
        None => Ok(Vec::new(alloc)),
    }
}

// The cells of each of the three tracks.
fn all_cells(alloc: Global, named: &[Track]) -> Result<Shown, Memory> {
    Ok(Shown {
        first: cells_at(alloc, named, 0)?,
        second: cells_at(alloc, named, 1)?,
        third: cells_at(alloc, named, 2)?,
    })
}

// The three tracks after an edit.
fn edited<L: Ledger>(
    rt: &impl Abort,
    alloc: Global,
    blank: Blank,
    table: &Table,
    named: &mut Vec<Track>,
    edit: OnThree,
    keep: bool,
) -> Result<Shown, Memory>
    requires blank { (blank.name ≡ L.name) × (blank.parts ≡ L.parts) × (0 < blank.parts) }
    requires named { numbers_of named.old.items ≡ tracks_in 7 }
    requires good { All (λ t. IsGood table.now t) named.old.items }
{
    let mut steps = Steps::<L>::new(blank);
    let _ = edit_three(rt, alloc, table, named, edit, keep, &mut steps);
    all_cells(alloc, named)
}

// What the plain program says of one of the tracks of these, whose next item number this is, after an edit of track
// `own`, whose cells those are.
fn wanted(
    alloc: Global,
    own: (u32, &[Cell]),
    one: (u32, &[Cell]),
    edit: Edit,
    keep: bool,
    next: u32,
) -> Result<Vec<Cell>, Memory> {
    let (number, moved) = own;
    let (track, cells) = one;
    if track == number {
        plainly(alloc, cells, edit, keep, next)
    } else {
        plainly_beside(alloc, moved, cells, edit, keep, next)
    }
}

// What the plain program says of each of the three tracks after an edit of track `own`.
fn all_wanted(
    alloc: Global,
    before: &Shown,
    own: u32,
    edit: Edit,
    keep: bool,
) -> Result<Shown, Memory> {
    let (first, second, third) = (
        before.first.as_slice(),
        before.second.as_slice(),
        before.third.as_slice(),
    );
    let moved = match own {
        0 => first,
        1 => second,
        _ => third,
    };
    Ok(Shown {
        first: wanted(alloc, (own, moved), (0, first), edit, keep, 3)?,
        second: wanted(alloc, (own, moved), (1, second), edit, keep, 3)?,
        third: wanted(alloc, (own, moved), (2, third), edit, keep, 2)?,
    })
}

// An edit of one track as one over three, of source frames from 500 on.
fn on_three(own: u32, edit: Edit) -> Option<OnThree> {
    match edit {
        Edit::Put(at, len) => Some(OnThree::Put(own, at, 500, len)),
        Edit::Take(item) => Some(OnThree::Take(own, item)),
        _ => None,
    }
}

// Whether an edit of track `own` leaves what the plain program says of each of these tracks.
fn agrees(
    rt: &impl Abort,
    alloc: Global,
    row: &Row,
    own: u32,
    edit: Edit,
    keep: bool,
) -> Result<bool, Memory> {
    let table = small_table(alloc)?;
    let Some(a) = dissolved(alloc, &table, 0, row.first)? else {
        return Ok(false);
    };
    let Some(b) = dissolved(alloc, &table, 1, row.second)? else {
        return Ok(false);
    };
    let Some(c) = short(alloc, &table, row.third)? else {
        return Ok(false);
    };
    let Some(asked) = on_three(own, edit) else {
        return Ok(false);
    };
    let mut named = three(alloc, a, b, c)?;
    let before = all_cells(alloc, &named)?;
    let after = edited::<Brand>(rt, alloc, Blank::new(1), &table, &mut named, asked, keep)?;
    let want = all_wanted(alloc, &before, own, edit, keep)?;
    Ok(after == want)
}

// Sees that each extract and insert over a row of tracks leaves what the plain program says.
fn row_agrees(rt: &impl Abort, alloc: Global, row: &Row, keep: bool) -> Result<(), Memory> {
    for own in 0..3 {
        for item in 0..3 {
            let edit = Edit::Take(item);
            assert!(rt;
                agrees(rt, alloc, row, own, edit, keep)?,
                "{row:?} {own} {edit:?} {keep}"
            );
        }
        for at in 0..16 {
            for len in 1..4 {
                let edit = Edit::Put(at, len);
                assert!(rt;
                    agrees(rt, alloc, row, own, edit, keep)?,
                    "{row:?} {own} {edit:?} {keep}"
                );
            }
        }
    }
    Ok(())
}

#[test]
fn inserts_and_extracts_move_dissolves_on_each_track(rt: HostRuntime) -> Result<(), Fail> {
    for row in &ROWS {
        for keep in [false, true] {
            row_agrees(&rt, rt.alloc(), row, keep)?;
        }
    }
    Ok(())
}
