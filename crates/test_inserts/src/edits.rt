// The edits of one track over dissolves, which they keep or not, beside the plain program.
ghost use Rattle.std.specs.Prelude.{◌≡◌, ◌<◌, [], ◌∷◌, All, IfOk, IfSome};
ghost use Rattle.composables.specs.Good.{IsGood};
ghost use Rattle.composables.specs.OwnTracks.{numbers_of};
ghost use Rattle.composables.specs.Roomy.{IsRoomy};

use crate::plain::plainly;
use composables::{
    Done, EditFault, Extract, Fill, FillLength, Insert, ItemView, Memory, Overwrite, Remove, Slice,
    Table, Track,
};
use edit_insert::{extract, fill, insert, overwrite, remove, slice};
use frame_meaning::{Cell, What};
use std::alloc::Global;
use std::marker::Brand;
use std::sync::ledger::{Blank, Ledger};
use std::test::Fail;
use step_count::Steps;
use test_tracks::{clip, dissolve, gap, laid_track, small_table};

/// An edit of track 0: a new item at a place, so many frames long, over what is there or before it; an item away, with
/// its frames or without; a cut at a place; a new item in the gap that has a place, of up to so many frames or of all.
#[derive(Clone, Copy, Debug, PartialEq, Eq)]
pub enum Edit {
    Over(u32, u32),
    Put(u32, u32),
    Out(u32),
    Take(u32),
    Cut(u32),
    Fill(u32, u32),
    FillAll(u32),
}

/// An item with a dissolve at the cut before it, of so many frames before and after; (0, 0) is none.
pub fn with_mark(mark: (u32, u32), view: ItemView) -> ItemView {
    let (a, b) = mark;
    if a == 0 && b == 0 {
        view
    } else {
        dissolve(a, b, view)
    }
}

/// Items of four and three frames, a gap of three and an item of four, with these dissolves at the cuts between them.
pub fn dissolved(
    alloc: Global,
    table: &Table,
    number: u32,
    marks: [(u32, u32); 3],
) -> Result<Option<Track>, Memory>
    ensures number { IfOk result (λ o. IfSome o (λ t. t.number ≡ number)) }
    ensures good { IfOk result (λ o. IfSome o (λ t. IsGood table.now t)) }
    ensures roomy { IfOk result (λ o. IfSome o (λ t. IsRoomy t)) }
{
    let views = [
        clip(0, 0, 50, 4),
        with_mark(marks[0], clip(1, 0, 7, 3)),
        with_mark(marks[1], gap(3)),
        with_mark(marks[2], clip(2, 0, 90, 4)),
    ];
    laid_track(alloc, table, number, &views)
}

// An overwrite of track 0 with so many frames of media 0 from 500 on.
fn over(at: u32, len: u32, keep: bool) -> Overwrite
    ensures { result.track ≡ 0 }
{
    Overwrite {
        track: 0,
        at,
        what: What::Media(0),
        from: 500,
        len,
        keep,
    }
}

// An insert into track 0 of so many frames of media 0 from 500 on.
fn put(at: u32, len: u32, keep: bool) -> Insert
    ensures tracks { result.tracks ≡ 1 }
    ensures track { result.track ≡ 0 }
{
    Insert {
        tracks: 1,
        track: 0,
        at,
        what: What::Media(0),
        from: 500,
        len,
        keep,
    }
}

// A fill of a gap of track 0 with media 0 from 500 on.
fn filled(at: u32, length: FillLength, keep: bool) -> Fill
    ensures { result.track ≡ 0 }
{
    Fill {
        track: 0,
        at,
        what: What::Media(0),
        from: 500,
        length,
        keep,
    }
}

// Does an edit of the one track that is named.
fn edit_it<L: Ledger>(
    alloc: Global,
    table: &Table,
    named: &mut Vec<Track>,
    edit: Edit,
    keep: bool,
    steps: &mut Steps<L>,
) -> Result<Done, EditFault>
    requires named { numbers_of named.old.items ≡ 0 ∷ [] }
    requires good { All (λ t. IsGood table.now t) named.old.items }
    requires roomy { All (λ t. IsRoomy t) named.old.items }
{
    match edit {
        Edit::Over(at, len) => overwrite(alloc, table, named, &over(at, len, keep), steps),
        Edit::Put(at, len) => insert(alloc, table, named, &put(at, len, keep), steps),
        Edit::Out(item) => {
            let call = Remove {
                track: 0,
                item,
                keep,
            };
            remove(alloc, table, named, &call, steps)
        }
        Edit::Take(item) => {
            let call = Extract {
                tracks: 1,
                track: 0,
                item,
                keep,
            };
            extract(alloc, table, named, &call, steps)
        }
        Edit::Cut(at) => {
            let call = Slice { track: 0, at, keep };
            slice(alloc, table, named, &call, steps)
        }
        Edit::Fill(at, len) => {
            let call = filled(at, FillLength::Source(len), keep);
            fill(alloc, table, named, &call, steps)
        }
        Edit::FillAll(at) => {
            let call = filled(at, FillLength::Sequence, keep);
            fill(alloc, table, named, &call, steps)
        }
    }
}

// The cells of a track after an edit.
fn edited<L: Ledger>(
    alloc: Global,
    blank: Blank,
    table: &Table,
    track: Track,
    edit: Edit,
    keep: bool,
) -> Result<Vec<Cell>, Memory>
    requires blank { (blank.name ≡ L.name) × (blank.parts ≡ L.parts) × (0 < blank.parts) }
    requires number { track.number ≡ 0 }
    requires good { IsGood table.now track }
    requires roomy { IsRoomy track }
{
    let mut steps = Steps::<L>::new(blank);
    let mut named = Vec::new(alloc);
    named.push(track)?;
    let _ = edit_it(alloc, table, &mut named, edit, keep, &mut steps);
    match named.first() {
        Some(track) => track.cells(alloc),
        None => Ok(Vec::new(alloc)),
    }
}

// The cells of the track with these dissolves after an edit, which keeps dissolves or not, and what the plain program
// says of them.
fn both(
    alloc: Global,
    marks: [(u32, u32); 3],
    edit: Edit,
    keep: bool,
) -> Result<Option<(Vec<Cell>, Vec<Cell>)>, Memory> {
    let table = small_table(alloc)?;
    let Some(track) = dissolved(alloc, &table, 0, marks)? else {
        return Ok(None);
    };
    let before = track.cells(alloc)?;
    let after = edited::<Brand>(alloc, Blank::new(1), &table, track, edit, keep)?;
    let want = plainly(alloc, &before, edit, keep, 3)?;
    Ok(Some((after, want)))
}

// Whether an edit of that track leaves what the plain program says, with dissolves kept and without.
fn agrees(alloc: Global, marks: [(u32, u32); 3], edit: Edit) -> Result<bool, Memory> {
    for keep in [false, true] {
        let Some((after, want)) = both(alloc, marks, edit, keep)? else {
            return Ok(false);
        };
        if after != want {
            return Ok(false);
        }
    }
    Ok(true)
}

/// Dissolves at the three cuts: of any size that the items beside them have room for, and none.
pub const MARKS: [[(u32, u32); 3]; 16] = [
    [(1, 1), (1, 2), (1, 1)],
    [(4, 3), (0, 3), (0, 4)],
    [(4, 0), (3, 0), (3, 4)],
    [(2, 1), (2, 1), (2, 2)],
    [(0, 1), (0, 1), (0, 1)],
    [(1, 0), (1, 0), (1, 0)],
    [(3, 2), (1, 0), (3, 1)],
    [(0, 3), (0, 0), (3, 0)],
    [(0, 0), (2, 2), (1, 3)],
    [(4, 3), (0, 0), (0, 0)],
    [(0, 0), (3, 3), (0, 0)],
    [(0, 0), (0, 0), (3, 4)],
    [(0, 0), (0, 0), (0, 0)],
    [(2, 2), (1, 2), (1, 2)],
    [(1, 3), (0, 2), (1, 4)],
    [(3, 1), (2, 3), (0, 3)],
];

#[test]
fn items_go_and_places_are_cut_beside_dissolves(rt: HostRuntime) -> Result<(), Fail> {
    for marks in MARKS {
        for item in 0..4 {
            for edit in [Edit::Out(item), Edit::Take(item)] {
                assert!(rt; agrees(rt.alloc(), marks, edit)?, "{marks:?} {edit:?}");
            }
        }
        for at in 0..14 {
            let edit = Edit::Cut(at);
            assert!(rt; agrees(rt.alloc(), marks, edit)?, "{marks:?} {edit:?}");
        }
    }
    Ok(())
}

#[test]
fn items_come_in_beside_dissolves(rt: HostRuntime) -> Result<(), Fail> {
    for marks in MARKS {
        for at in 0..16 {
            for len in 1..16 {
                let edit = Edit::Over(at, len);
                assert!(rt; agrees(rt.alloc(), marks, edit)?, "{marks:?} {edit:?}");
            }
            for len in 1..4 {
                let edit = Edit::Put(at, len);
                assert!(rt; agrees(rt.alloc(), marks, edit)?, "{marks:?} {edit:?}");
            }
        }
        for at in 7..10 {
            for len in 1..6 {
                let edit = Edit::Fill(at, len);
                assert!(rt; agrees(rt.alloc(), marks, edit)?, "{marks:?} {edit:?}");
            }
            let edit = Edit::FillAll(at);
            assert!(rt; agrees(rt.alloc(), marks, edit)?, "{marks:?} {edit:?}");
        }
    }
    Ok(())
}

// The dissolves of these cells: their places, and their frames before and after the cut.
fn marks_in(alloc: Global, cells: &[Cell]) -> Result<Vec<(usize, u32, u32)>, Memory> {
    let mut marks = Vec::new(alloc);
    for (place, cell) in cells.iter().enumerate() {
        match cell.mark {
            Some(mark) => marks.push((place, mark.a, mark.b))?,
            None => {}
        }
    }
    Ok(marks)
}

// Whether an edit of that track leaves these dissolves.
fn leaves(
    alloc: Global,
    marks: [(u32, u32); 3],
    edit: Edit,
    keep: bool,
    want: &[(usize, u32, u32)],
) -> Result<bool, Memory> {
    let Some((after, _)) = both(alloc, marks, edit, keep)? else {
        return Ok(false);
    };
    Ok(marks_in(alloc, &after)?.as_slice() == want)
}

// Dissolves at the cuts 4, 7 and 10, over the frames [2, 6), [6, 9) and [9, 13).
#[test]
fn a_dissolve_beside_an_edit_is_shortened_where_it_is_kept(rt: HostRuntime) -> Result<(), Fail> {
    let marks = [(2, 2), (1, 2), (1, 3)];
    for (edit, kept, dropped) in [
        // a cut before a dissolve's own, after it, and at it
        (
            Edit::Cut(3),
            [(4, 1, 2), (7, 1, 2), (10, 1, 3)].as_slice(),
            [(7, 1, 2), (10, 1, 3)].as_slice(),
        ),
        (
            Edit::Cut(5),
            [(4, 2, 1), (7, 1, 2), (10, 1, 3)].as_slice(),
            [(7, 1, 2), (10, 1, 3)].as_slice(),
        ),
        (
            Edit::Cut(4),
            [(7, 1, 2), (10, 1, 3)].as_slice(),
            [(7, 1, 2), (10, 1, 3)].as_slice(),
        ),
        // an item over a dissolve's own cut, over some of its frames, and up to its cut
        (
            Edit::Over(5, 3),
            [(4, 2, 1), (10, 1, 3)].as_slice(),
            [(10, 1, 3)].as_slice(),
        ),
        (
            Edit::Over(8, 1),
            [(4, 2, 2), (7, 1, 1), (10, 1, 3)].as_slice(),
            [(4, 2, 2), (10, 1, 3)].as_slice(),
        ),
        (
            Edit::Over(9, 1),
            [(4, 2, 2), (7, 1, 2)].as_slice(),
            [(4, 2, 2), (7, 1, 2)].as_slice(),
        ),
        // what moves takes its dissolves along
        (
            Edit::Put(3, 2),
            [(6, 1, 2), (9, 1, 2), (12, 1, 3)].as_slice(),
            [(9, 1, 2), (12, 1, 3)].as_slice(),
        ),
        (
            Edit::Put(11, 2),
            [(4, 2, 2), (7, 1, 2), (10, 1, 1)].as_slice(),
            [(4, 2, 2), (7, 1, 2)].as_slice(),
        ),
        // dissolves at both ends of an item go with it
        (
            Edit::Out(1),
            [(10, 1, 3)].as_slice(),
            [(10, 1, 3)].as_slice(),
        ),
        (
            Edit::Take(1),
            [(7, 1, 3)].as_slice(),
            [(7, 1, 3)].as_slice(),
        ),
        (
            Edit::Fill(9, 2),
            [(4, 2, 2), (10, 1, 3)].as_slice(),
            [(4, 2, 2), (10, 1, 3)].as_slice(),
        ),
    ] {
        assert!(rt;
            leaves(rt.alloc(), marks, edit, true, kept)?,
            "{edit:?} keep"
        );
        assert!(rt;
            leaves(rt.alloc(), marks, edit, false, dropped)?,
            "{edit:?}"
        );
    }
    Ok(())
}

// A gap of three frames before a dissolve whose frames before its cut are all in the gap.
#[test]
fn a_fill_leaves_a_kept_dissolve_the_rest_of_the_gap(rt: HostRuntime) -> Result<(), Fail> {
    let marks = [(0, 0), (2, 0), (3, 2)];
    for (edit, kept) in [
        (Edit::Fill(8, 1), [(10, 2, 2)].as_slice()),
        (Edit::Fill(8, 2), [(10, 1, 2)].as_slice()),
        (Edit::Fill(8, 3), [].as_slice()),
        (Edit::FillAll(7), [].as_slice()),
    ] {
        assert!(rt;
            leaves(rt.alloc(), marks, edit, true, kept)?,
            "{edit:?} keep"
        );
        assert!(rt; leaves(rt.alloc(), marks, edit, false, &[])?, "{edit:?}");
    }
    Ok(())
}
