// Roll and slide by every delta on a small track with gaps and dissolves.
ghost use Rattle.std.specs.Prelude.{◌≡◌, ◌<◌, [], ◌∷◌, All, IfOk, IfSome};
ghost use Rattle.composables.specs.Good.{IsGood};
ghost use Rattle.composables.specs.OwnTracks.{numbers_of};
ghost use Rattle.composables.specs.Roomy.{IsRoomy};

use crate::plain::{is_cut, moved, range, used};
use composables::{
    Done, EditFault, Kind, Listed, Media, Nest, Reels, Refusal, Roll, Slide, Table, Track,
};
use edit_roll::{roll, slide};
use frame_meaning::{Cell, Memory};
use std::alloc::Global;
use std::marker::Brand;
use std::sync::ledger::{Blank, Ledger};
use std::test::Fail;
use step_count::Steps;
use test_tracks::{clip, dissolve, gap, laid_track};

/// Media 0 has the source frames [8, 60), media 1 [0, 86400).
pub fn table(alloc: Global) -> Result<Table, Memory> {
    let mut kinds = Listed::new(alloc);
    kinds.push(Kind::Video)?;
    let mut media = Listed::new(alloc);
    for (from, to) in [(8, 60), (0, 86_400)] {
        media.push(Media { reel: 0, from, to })?;
    }
    let nests: Listed<Nest> = Listed::new(alloc);
    Ok(Table {
        kinds,
        reels: Reels::new(alloc),
        media,
        nests,
    })
}

// Four items and a gap, 22 frames, with a dissolve at three of the cuts. Item 0 has one frame after it, item 2 one
// before it.
fn track(alloc: Global, table: &Table) -> Result<Option<Track>, Memory>
    ensures number { IfOk result (λ o. IfSome o (λ t. t.number ≡ 0)) }
    ensures good { IfOk result (λ o. IfSome o (λ t. IsGood table.now t)) }
    ensures roomy { IfOk result (λ o. IfSome o (λ t. IsRoomy t)) }
{
    let views = [
        clip(0, 0, 53, 6),
        dissolve(1, 1, clip(1, 1, 100, 4)),
        dissolve(1, 1, gap(3)),
        clip(2, 0, 9, 5),
        dissolve(2, 1, clip(3, 1, 200, 4)),
    ];
    laid_track(alloc, table, 0, &views)
}

// The cut at a place, or an item.
#[derive(Clone, Copy, Debug)]
enum Edit {
    Cut(u32),
    Item(u32),
}

// What an edit answers, and the cells of the track after it.
#[derive(Drop, PartialEq, Eq)]
struct Played {
    answer: Result<Done, EditFault>,
    cells: Vec<Cell>,
}

// Does a roll or slide on track 0.
fn play<L: Ledger>(
    alloc: Global,
    blank: Blank,
    table: &Table,
    track: Track,
    edit: Edit,
    by: i32,
) -> Result<Played, Memory>
    requires blank { (blank.name ≡ L.name) × (blank.parts ≡ L.parts) × (0 < blank.parts) }
    requires number { track.number ≡ 0 }
    requires good { IsGood table.now track }
    requires roomy { IsRoomy track }
{
    let mut steps = Steps::<L>::new(blank);
    let mut named = Vec::new(alloc);
    named.push(track)?;
    let answer = edited(alloc, table, &mut named, edit, by, &mut steps);
    let cells = match named.first() {
        Some(track) => track.cells(alloc)?,
        None => Vec::new(alloc),
    };
    Ok(Played { answer, cells })
}

// Does a roll of a cut or a slide of an item of the one track that is named.
fn edited<L: Ledger>(
    alloc: Global,
    table: &Table,
    named: &mut Vec<Track>,
    edit: Edit,
    by: i32,
    steps: &mut Steps<L>,
) -> Result<Done, EditFault>
    requires named { numbers_of named.old.items ≡ 0 ∷ [] }
    requires good { All (λ t. IsGood table.now t) named.old.items }
    requires roomy { All (λ t. IsRoomy t) named.old.items }
{
    match edit {
        Edit::Cut(at) => {
            let call = Roll { track: 0, at, by };
            roll(alloc, table, named, &call, steps)
        }
        Edit::Item(item) => {
            let call = Slide {
                tracks: 1,
                track: 0,
                item,
                by,
            };
            slide(alloc, table, named, &call, steps)
        }
    }
}

// What an edit answers and the cells after it, by the plain program.
fn plainly(alloc: Global, cells: &[Cell], edit: Edit, by: i32) -> Result<Played, Memory> {
    let (x, y, refusal) = match edit {
        Edit::Cut(at) => {
            let place = i64::from(at);
            let refusal = if is_cut(cells, place) {
                None
            } else {
                Some(Refusal::NotACut(at))
            };
            (place, place, refusal)
        }
        Edit::Item(item) => {
            let (x, y) = range(cells, item);
            (x, y, if x == y { Some(Refusal::NoItem) } else { None })
        }
    };
    let delta = match refusal {
        Some(_) => 0,
        None => used(cells, x, y, i64::from(by)),
    };
    let answer = match refusal {
        Some(refusal) => Err(EditFault::Refused(refusal)),
        None => Ok(Done::By(i32::try_from(delta).unwrap_or(0))),
    };
    let cells = moved(alloc, cells, x, y, delta)?;
    Ok(Played { answer, cells })
}

// Whether an edit of that track does what the plain program says.
fn agrees(alloc: Global, edit: Edit, by: i32) -> Result<bool, Memory> {
    let table = table(alloc)?;
    let Some(track) = track(alloc, &table)? else {
        return Ok(false);
    };
    let before = track.cells(alloc)?;
    let got = play::<Brand>(alloc, Blank::new(1), &table, track, edit, by)?;
    let want = plainly(alloc, &before, edit, by)?;
    Ok(got == want)
}

// The first delta by which an edit does something else than the plain program.
fn difference(alloc: Global, edit: Edit) -> Result<Option<i32>, Memory> {
    for by in -12..13 {
        if !agrees(alloc, edit, by)? {
            return Ok(Some(by));
        }
    }
    for by in [i32::MIN, i32::MAX] {
        if !agrees(alloc, edit, by)? {
            return Ok(Some(by));
        }
    }
    Ok(None)
}

#[test]
fn rolls_at_every_place_agree_with_a_plain_program(rt: HostRuntime) -> Result<(), Fail> {
    for at in 0..24 {
        assert_eq!(rt;
            difference(rt.alloc(), Edit::Cut(at))?,
            None,
            "roll at {at}"
        );
    }
    assert_eq!(rt; difference(rt.alloc(), Edit::Cut(u32::MAX))?, None);
    Ok(())
}

#[test]
fn slides_of_every_item_agree_with_a_plain_program(rt: HostRuntime) -> Result<(), Fail> {
    for item in 0..5 {
        assert_eq!(rt;
            difference(rt.alloc(), Edit::Item(item))?,
            None,
            "slide of item {item}"
        );
    }
    Ok(())
}
