// Worked runs, and `runs_in` against the plain programs on every range of small tracks.
ghost use Rattle.std.specs.Prelude.{◌<◌, length};

use crate::tracks::{CODES, marked, nest, table};
use composables::{ItemView, Table, Track};
use dissolves::runs_in;
use frame_meaning::{Frame, Memory, Run, Side, What, rendered, runs_of};
use std::alloc::Global;
use std::test::Fail;
use test_tracks::{clip, dissolve, gap, laid_track};

// The first range up to the place `b` where `runs_in` is not the runs of what the plain programs show.
fn difference_to(
    alloc: Global,
    track: &Track,
    frames: &[Frame<What>],
    b: u32,
) -> Result<Option<u32>, Memory>
    requires { length track.now.cells < 4294967295 }
{
    if b > track.length() {
        return Ok(None);
    }
    for a in 0..b + 1 {
        let Some(cut) = frames.get(a as usize..b as usize) else {
            return Ok(Some(a));
        };
        if cut.len() > 1000 {
            return Ok(Some(a));
        }
        let want = runs_of(alloc, cut)?;
        let got = runs_in(alloc, track, a, b)?;
        if got.as_slice() != want.as_slice() {
            return Ok(Some(a));
        }
    }
    Ok(None)
}

// The first range of a track for which `runs_in` is not what the plain programs say.
fn difference(alloc: Global, track: &Track) -> Result<Option<(u32, u32)>, Memory>
    requires { length track.now.cells < 4294967295 }
{
    let length = track.length();
    let cells = track.cells(alloc)?;
    let frames = rendered(alloc, &cells)?;
    for b in 0..length + 1 {
        match difference_to(alloc, track, &frames, b)? {
            Some(a) => return Ok(Some((a, b))),
            None => {}
        }
    }
    Ok(None)
}

// How many dissolves of up to two frames on each side of its two cuts a track of three can have, where `runs_in` is
// right with each of them.
fn right_marks(alloc: Global, items: [ItemView; 3]) -> Result<u32, Memory> {
    let table = table(alloc, &[(0, u32::MAX), (0, 100), (0, 100)])?;
    let mut right = 0_u32;
    for code in 0..CODES {
        if is_right(alloc, &table, &marked(items, code))? {
            right = right.saturating_add(1);
        }
    }
    Ok(right)
}

// Whether `runs_in` is right on every range of a track of these items and gaps.
fn is_right(alloc: Global, table: &Table, views: &[ItemView]) -> Result<bool, Memory> {
    let Some(track) = laid_track(alloc, table, 0, views)? else {
        return Ok(false);
    };
    if track.length() == 4_294_967_295 {
        return Ok(false);
    }
    Ok(difference(alloc, &track)? == None)
}

#[test]
fn runs_are_those_of_the_frames_shown(rt: HostRuntime) -> Result<(), Fail> {
    // Two dissolves may have 3 times 9 - 1 times 3 forms, but for those that a source or a nest leaves out.
    let rows = [
        (
            [clip(0, 0, 10, 2), clip(1, 1, 20, 3), clip(2, 2, 30, 2)],
            72,
        ),
        (
            [clip(0, 0, 10, 2), clip(1, 0, 12, 3), clip(2, 0, 15, 2)],
            72,
        ),
        (
            [clip(0, 0, 10, 2), clip(1, 0, 13, 3), clip(2, 0, 15, 2)],
            72,
        ),
        ([clip(0, 0, 10, 2), gap(3), clip(1, 0, 15, 2)], 72),
        ([gap(2), clip(5, 0, 10, 3), gap(2)], 72),
        ([clip(0, 0, 0, 2), clip(1, 1, 1, 3), clip(2, 1, 0, 2)], 18),
        // one source frame more after the first clip
        (
            [
                clip(0, 0, 4_294_967_292, 2),
                clip(1, 1, 20, 3),
                clip(2, 1, 30, 2),
            ],
            54,
        ),
        ([nest(0, 2), nest(1, 3), clip(2, 1, 30, 2)], 1),
        ([gap(2), gap(3), clip(2, 1, 30, 2)], 0),
    ];
    for (items, want) in rows {
        assert_eq!(rt; right_marks(rt.alloc(), items)?, want, "{items:?}");
    }
    Ok(())
}

// A source frame of a media entry, as a side.
fn at(media: u32, source: u32) -> Side<What> {
    Side::Pic {
        what: What::Media(media),
        source,
    }
}

// So many frames of a media entry from a source frame on.
fn pic(media: u32, source: u32, len: u32) -> Run<What> {
    Run {
        frame: Frame::Pic {
            what: What::Media(media),
            source,
        },
        len,
    }
}

fn dark(len: u32) -> Run<What> {
    Run {
        frame: Frame::Dark,
        len,
    }
}

// Mixed frames, of which the first has this weight of so many.
fn mix(left: Side<What>, right: Side<What>, weight: (u32, u32), len: u32) -> Run<What> {
    let (num, den) = weight;
    Run {
        frame: Frame::Mix {
            left,
            right,
            num,
            den,
        },
        len,
    }
}

// What is shown in the places [a, b) of a track of these, and nothing where there is none.
fn seen(alloc: Global, views: &[ItemView], range: (u32, u32)) -> Result<Vec<Run<What>>, Memory> {
    let (a, b) = range;
    let table = table(alloc, &[(0, 400), (0, 400)])?;
    let Some(track) = laid_track(alloc, &table, 0, views)? else {
        return Ok(Vec::new(alloc));
    };
    if a > b || b > track.length() || track.length() == 4_294_967_295 {
        return Ok(Vec::new(alloc));
    }
    runs_in(alloc, &track, a, b)
}

#[test]
fn a_view_shows_its_part_of_each_dissolve(rt: HostRuntime) -> Result<(), Fail> {
    let cut = [clip(0, 0, 100, 10), dissolve(1, 2, clip(1, 1, 200, 10))];
    let clips = [
        clip(0, 0, 100, 5),
        dissolve(1, 2, clip(1, 1, 200, 6)),
        dissolve(2, 1, clip(2, 0, 300, 5)),
    ];
    let fades = [
        gap(4),
        dissolve(0, 3, clip(0, 0, 50, 6)),
        dissolve(2, 0, gap(5)),
    ];
    let black = Side::Dark;
    for (views, range, want) in [
        // the whole of a dissolve, and each part of one
        (
            cut.as_slice(),
            (0, 20),
            [
                pic(0, 100, 9),
                mix(at(0, 109), at(1, 199), (1, 4), 3),
                pic(1, 202, 8),
            ]
            .as_slice(),
        ),
        (
            &cut,
            (8, 11),
            &[pic(0, 108, 1), mix(at(0, 109), at(1, 199), (1, 4), 2)],
        ),
        (&cut, (10, 11), &[mix(at(0, 110), at(1, 200), (2, 4), 1)]),
        (
            &cut,
            (11, 13),
            &[mix(at(0, 111), at(1, 201), (3, 4), 1), pic(1, 202, 1)],
        ),
        // from within one dissolve to within the next
        (
            &clips,
            (5, 11),
            &[
                mix(at(0, 105), at(1, 200), (2, 4), 2),
                pic(1, 202, 2),
                mix(at(1, 204), at(0, 298), (1, 4), 2),
            ],
        ),
        // a fade in and a fade out
        (
            &fades,
            (0, 15),
            &[
                dark(4),
                mix(black, at(0, 50), (1, 4), 3),
                pic(0, 53, 1),
                mix(at(0, 54), black, (1, 3), 2),
                dark(5),
            ],
        ),
    ] {
        assert_eq!(rt;
            seen(rt.alloc(), views, range)?.as_slice(),
            want,
            "{range:?}"
        );
    }
    Ok(())
}
