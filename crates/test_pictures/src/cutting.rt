// Worked channels, cut into segments.
use crate::tables::{add_track, are_short, are_sound, table_of};
use composables::{ItemView, Kind, Memory, Table, Track};
use flatten::{Segment, SegmentFault, Shown, flatten, segments};
use frame_meaning::Side;
use std::alloc::Global;
use std::test::Fail;
use test_tracks::{clip, dissolve as with_dissolve, gap};

// A source frame of a reel, as a side.
fn pic(what: u32, source: u32) -> Side<u32> {
    Side::Pic { what, source }
}

// A segment without a dissolve.
fn run_of(at: u32, len: u32, side: Side<u32>) -> Segment {
    Segment {
        at,
        len,
        from: None,
        frames: 0,
        side,
    }
}

// A segment with a dissolve of so many frames.
fn dissolve(at: u32, frames: u32, len: u32, from: Side<u32>, side: Side<u32>) -> Segment {
    Segment {
        at,
        len,
        from: Some(from),
        frames,
        side,
    }
}

// The segments of what the tracks show, and none where they have no meaning.
fn cut(alloc: Global, table: &Table, tracks: &[Track]) -> Result<Vec<Segment>, SegmentFault> {
    if !are_sound(table.nests.as_slice()) || !are_short(tracks) {
        return Ok(Vec::new(alloc));
    }
    let Shown { video, audio: _ } = flatten(alloc, table, tracks)?;
    segments(alloc, video.as_slice())
}

// The segments of a track with two dissolves, over which another lies.
fn cut_below(alloc: Global, upper: &[ItemView]) -> Result<Vec<Segment>, SegmentFault> {
    let table = table_of(alloc, &[Kind::Video, Kind::Video])?;
    let mut tracks = Vec::new(alloc);
    let lower = [
        clip(0, 0, 10, 4),
        with_dissolve(1, 2, clip(1, 2, 50, 6)),
        with_dissolve(2, 1, gap(3)),
    ];
    add_track(&mut tracks, alloc, &table, &lower)?;
    add_track(&mut tracks, alloc, &table, upper)?;
    cut(alloc, &table, &tracks)
}

#[test]
fn a_dissolve_has_what_goes_on_behind_it(rt: HostRuntime) -> Result<(), Fail> {
    for (upper, want) in [
        (
            [].as_slice(),
            [
                run_of(0, 3, pic(0, 10)),
                dissolve(3, 3, 5, pic(0, 13), pic(1, 49)),
                dissolve(8, 3, 5, pic(1, 54), Side::Dark),
            ]
            .as_slice(),
        ),
        // until another reel is seen
        (
            &[gap(6), clip(0, 4, 70, 1)],
            &[
                run_of(0, 3, pic(0, 10)),
                dissolve(3, 3, 3, pic(0, 13), pic(1, 49)),
                run_of(6, 1, pic(2, 70)),
                run_of(7, 1, pic(1, 53)),
                dissolve(8, 3, 5, pic(1, 54), Side::Dark),
            ],
        ),
    ] {
        assert_eq!(rt; cut_below(rt.alloc(), upper)?.as_slice(), want, "{want:?}");
    }
    Ok(())
}

// The place where a part of a dissolve is seen, below a picture of one frame.
fn part_below(alloc: Global, place: u32) -> Result<Option<u32>, Memory> {
    match cut_below(alloc, &[gap(place), clip(0, 4, 70, 1)]) {
        Ok(_) => Ok(None),
        Err(SegmentFault::PartialDissolve(part)) => Ok(Some(part)),
        Err(SegmentFault::Memory) => Err(Memory),
    }
}

#[test]
fn a_part_of_a_dissolve_has_no_segment(rt: HostRuntime) -> Result<(), Fail> {
    let rows = [(3, 4), (4, 3), (5, 3), (8, 9), (10, 8)];
    for (place, part) in rows {
        assert_eq!(rt; part_below(rt.alloc(), place)?, Some(part));
    }
    Ok(())
}
