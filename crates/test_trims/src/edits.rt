// Trim and slip of every item of a small track by every delta, beside a plain program.
ghost use Rattle.std.specs.Prelude.{◌≡◌, ◌<◌, IfOk, IfSome};
ghost use Rattle.composables.specs.Good.{IsGood};
ghost use Rattle.composables.specs.Roomy.{IsRoomy};

use crate::plain::{frames_of, may_slip, range, slipped, trim_used, trimmed};
use composables::{
    Done, EditFault, End, Kind, Listed, Media, Nest, Reels, Refusal, Slip, Table, Track, Trim,
};
use edit_trim::{slip, trim};
use frame_meaning::{Cell, Memory, What};
use std::alloc::Global;
use std::marker::Brand;
use std::sync::ledger::{Blank, Ledger};
use std::test::Fail;
use step_count::Steps;
use test_tracks::{clip, dissolve, gap, laid_track};

/// A table of the three media of the plain program.
pub fn table(alloc: Global) -> Result<Table, Memory> {
    let mut kinds = Listed::new(alloc);
    kinds.push(Kind::Video)?;
    let mut media = Listed::new(alloc);
    for number in 0..3 {
        let (from, to) = frames_of(What::Media(number));
        media.push(Media {
            reel: 0,
            from: u32::try_from(from).unwrap_or(0),
            to: u32::try_from(to).unwrap_or(0),
        })?;
    }
    let nests: Listed<Nest> = Listed::new(alloc);
    Ok(Table {
        kinds,
        reels: Reels::new(alloc),
        media,
        nests,
    })
}

// Three items of a media of 12 frames and two gaps, 21 frames, with a dissolve at two of the cuts.
fn track(alloc: Global, table: &Table) -> Result<Option<Track>, Memory>
    ensures number { IfOk result (λ o. IfSome o (λ t. t.number ≡ 0)) }
    ensures good { IfOk result (λ o. IfSome o (λ t. IsGood table.now t)) }
    ensures roomy { IfOk result (λ o. IfSome o (λ t. IsRoomy t)) }
{
    let views = [
        gap(3),
        clip(0, 0, 10, 5),
        dissolve(1, 1, clip(1, 0, 11, 6)),
        dissolve(1, 2, gap(4)),
        clip(2, 0, 9, 3),
    ];
    laid_track(alloc, table, 0, &views)
}

// A trim of one end of an item, or a slip of it.
#[derive(Clone, Copy, Debug)]
enum Edit {
    Trim(End),
    Slip,
}

// What an edit answers, and the cells of the track after it.
#[derive(Drop, PartialEq, Eq)]
struct Played {
    answer: Result<Done, EditFault>,
    cells: Vec<Cell>,
}

// Does a trim or slip of an item of track 0.
fn play<L: Ledger>(
    alloc: Global,
    blank: Blank,
    table: &Table,
    track: Track,
    item: u32,
    edit: Edit,
    by: i32,
) -> Result<Played, Memory>
    requires blank { (blank.name ≡ L.name) × (blank.parts ≡ L.parts) × (0 < blank.parts) }
    requires number { track.number ≡ 0 }
    requires good { IsGood table.now track }
    requires roomy { IsRoomy track }
{
    let mut steps = Steps::<L>::new(blank);
    let mut named = Vec::new(alloc);
    named.push(track)?;
    let answer = match edit {
        Edit::Trim(end) => {
            let call = Trim {
                track: 0,
                item,
                end,
                by,
            };
            trim(alloc, table, &mut named, &call, &mut steps)
        }
        Edit::Slip => {
            let call = Slip {
                tracks: 1,
                track: 0,
                item,
                by,
            };
            slip(alloc, table, &mut named, &call, &mut steps)
        }
    };
    let cells = match named.first() {
        Some(track) => track.cells(alloc)?,
        None => Vec::new(alloc),
    };
    Ok(Played { answer, cells })
}

// The delta used by a slip of the cells that go with this one.
fn slip_used(own: &Cell, cells: &[Cell], by: i64) -> i64 {
    let mut nearest = 0;
    for frames in 1..40 {
        let delta = if by < 0 {
            0i64.saturating_sub(frames)
        } else {
            frames
        };
        if frames <= by.saturating_abs() && may_slip(own, cells, delta) {
            nearest = delta;
        }
    }
    nearest
}

// What an edit answers and the cells after it, by the plain program.
fn plainly(
    alloc: Global,
    cells: &[Cell],
    item: u32,
    edit: Edit,
    by: i32,
) -> Result<Played, Memory> {
    let (x, y) = range(cells, item);
    let first = cells.iter().find(|cell| cell.item == Some(item)).copied();
    let Some(own) = first else {
        let answer = Err(EditFault::Refused(Refusal::NoItem));
        let cells = Vec::from_slice(alloc, cells)?;
        return Ok(Played { answer, cells });
    };
    let asked = i64::from(by);
    let (used, cells) = match edit {
        Edit::Trim(end) => {
            let used = trim_used(cells, x, y, end, asked);
            (used, trimmed(alloc, cells, x, y, end, used)?)
        }
        Edit::Slip => {
            let used = slip_used(&own, cells, asked);
            (used, slipped(alloc, &own, cells, used)?)
        }
    };
    let answer = Ok(Done::By(i32::try_from(used).unwrap_or(0)));
    Ok(Played { answer, cells })
}

// Whether an edit of that track does what the plain program says.
fn agrees(alloc: Global, item: u32, edit: Edit, by: i32) -> Result<bool, Memory> {
    let table = table(alloc)?;
    let Some(track) = track(alloc, &table)? else {
        return Ok(false);
    };
    let before = track.cells(alloc)?;
    let got = play::<Brand>(alloc, Blank::new(1), &table, track, item, edit, by)?;
    let want = plainly(alloc, &before, item, edit, by)?;
    Ok(got == want)
}

// The first delta by which an edit of an item does something else than the plain program.
fn difference(alloc: Global, item: u32, edit: Edit) -> Result<Option<i32>, Memory> {
    for by in -12..13 {
        if !agrees(alloc, item, edit, by)? {
            return Ok(Some(by));
        }
    }
    for by in [i32::MIN, i32::MAX] {
        if !agrees(alloc, item, edit, by)? {
            return Ok(Some(by));
        }
    }
    Ok(None)
}

#[test]
fn heads_trimmed_by_every_delta_agree_with_a_plain_program(rt: HostRuntime) -> Result<(), Fail> {
    for item in 0..4 {
        let other = difference(rt.alloc(), item, Edit::Trim(End::Head))?;
        assert_eq!(rt; other, None, "head of item {item}");
    }
    Ok(())
}

#[test]
fn tails_trimmed_by_every_delta_agree_with_a_plain_program(rt: HostRuntime) -> Result<(), Fail> {
    for item in 0..4 {
        let other = difference(rt.alloc(), item, Edit::Trim(End::Tail))?;
        assert_eq!(rt; other, None, "tail of item {item}");
    }
    Ok(())
}

#[test]
fn slips_by_every_delta_agree_with_a_plain_program(rt: HostRuntime) -> Result<(), Fail> {
    for item in 0..4 {
        let other = difference(rt.alloc(), item, Edit::Slip)?;
        assert_eq!(rt; other, None, "slip of item {item}");
    }
    Ok(())
}
