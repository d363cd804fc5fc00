// Each limit of a list, met and passed by one.
use crate::cuts::{Row, list_of, plain};
use composables::{ItemView, Kind};
use edl_write::{ListFault, Written};
use reel_names::{AsIs, ReelNamer};
use std::alloc::{AllocFailed, Global};
use std::test::Fail;
use test_tracks::{clip, dissolve, gap};

// The last events of a list that is full.
const LAST: &str = "
998  R0       V     C        00:00:04:04 00:00:04:05 00:00:41:13 00:00:41:14
999  R0       V     C        00:00:00:00 00:00:00:01 00:00:41:14 00:00:41:15
";

// The frames of a day at 24 a second.
const DAY: u32 = 2_073_600;

// Why a picture track, of media of the reels R0 and R1, has no list that begins at a frame, if it has none.
fn fault_of(
    alloc: Global,
    picture: &[ItemView],
    start: u32,
    namer: Box<dyn ReelNamer>,
) -> Option<ListFault> {
    match list_of(
        alloc,
        &["R0", "R1", "no name"],
        &[(Kind::Video, picture)],
        plain(),
        start,
        namer,
    ) {
        Ok(_) => None,
        Err(fault) => Some(fault),
    }
}

#[test]
fn a_dissolve_has_999_frames_at_most(rt: HostRuntime) -> Result<(), Fail> {
    let alloc = rt.alloc();
    for (after, want) in [(499, None), (500, Some(ListFault::DissolveTooLong(1500)))] {
        let picture = [
            clip(0, 0, 5000, 2000),
            dissolve(500, after, clip(1, 1, 9000, 2000)),
        ];
        let namer = Box::new(alloc, AsIs::new(alloc))?;
        assert_eq!(rt; fault_of(alloc, &picture, 0, namer), want);
    }
    Ok(())
}

// Clips of one frame each, of which none goes on from the one before, but the last where it is to.
fn clips(alloc: Global, count: u32, through: bool) -> Result<Vec<ItemView>, AllocFailed<ItemView>> {
    let mut all = Vec::new(alloc);
    for number in 0..count {
        let source = if through && number + 1 == count {
            (number + 1) % 2 * 100 + 1
        } else {
            number % 2 * 100
        };
        all.push(clip(number, 0, source, 1))?;
    }
    Ok(all)
}

#[test]
fn a_list_has_999_events_at_most(rt: HostRuntime) -> Result<(), Fail> {
    let alloc = rt.alloc();
    for (count, through, want) in [
        (999, false, None),
        (1000, false, Some(ListFault::Events(1000))),
        // the last goes on from the one before, so that both are one event
        (1000, true, None),
        (1001, true, Some(ListFault::Events(1000))),
    ] {
        let namer = Box::new(alloc, AsIs::new(alloc))?;
        let picture = clips(alloc, count, through)?;
        assert_eq!(rt; fault_of(alloc, &picture, 0, namer), want);
    }
    Ok(())
}

// Whether a list ends with this event.
fn ends_with(list: &Written, event: &str) -> bool {
    list.text.as_slice().ends_with(event.as_bytes())
}

#[test]
fn the_last_event_has_the_number_999(rt: HostRuntime) -> Result<(), Fail> {
    let alloc = rt.alloc();
    let picture = clips(alloc, 999, false)?;
    let rows: [Row<'_>; 1] = [(Kind::Video, &picture)];
    let namer = Box::new(alloc, AsIs::new(alloc))?;
    let list = list_of(alloc, &["R0"], &rows, plain(), 0, namer)?;
    assert!(rt; ends_with(&list, LAST));
    Ok(())
}

#[test]
fn an_out_is_below_the_day(rt: HostRuntime) -> Result<(), Fail> {
    let alloc = rt.alloc();
    for (source, place, len, start, want) in [
        // source in, source out
        (DAY - 9, 0, 8, 0, None),
        (DAY - 9, 0, 9, 0, Some(DAY)),
        (DAY, 0, 1, 0, Some(DAY)),
        (DAY + 7, 0, 1, 0, Some(DAY + 7)),
        // record in, record out
        (0, 5, 3, DAY - 9, None),
        (0, 5, 4, DAY - 9, Some(DAY)),
        (0, 10, 1, DAY - 9, Some(DAY + 1)),
        // the source first
        (DAY - 1, 9, 5, DAY - 9, Some(DAY + 4)),
    ] {
        let picture = [gap(place), clip(0, 0, source, len)];
        let first = if place == 0 { 1 } else { 0 };
        let namer = Box::new(alloc, AsIs::new(alloc))?;
        let fault = fault_of(alloc, &picture[first..], start, namer);
        assert_eq!(rt; fault, want.map(|frame| ListFault::PastDay(frame)));
    }
    Ok(())
}

#[test]
fn what_comes_first_is_told(rt: HostRuntime) -> Result<(), Fail> {
    let alloc = rt.alloc();
    // a reel without a name, past the day; then without that
    for (source, want) in [(DAY, ListFault::PastDay(DAY)), (0, ListFault::Reel(2))] {
        let picture = [clip(0, 2, source, 1)];
        let namer = Box::new(alloc, AsIs::new(alloc))?;
        assert_eq!(rt; fault_of(alloc, &picture, 0, namer), Some(want));
    }
    // a long dissolve past the day
    let long = [
        clip(0, 0, DAY, 2000),
        dissolve(500, 500, clip(1, 2, DAY, 2000)),
    ];
    let namer = Box::new(alloc, AsIs::new(alloc))?;
    assert_eq!(rt;
        fault_of(alloc, &long, 0, namer),
        Some(ListFault::DissolveTooLong(1500))
    );
    Ok(())
}

// Of a dissolve that begins with its first item the line of that item is the one that is past the day.
#[test]
fn the_line_before_a_dissolve_is_below_the_day(rt: HostRuntime) -> Result<(), Fail> {
    let alloc = rt.alloc();
    for (source, want) in [
        (DAY - 1, None),
        (DAY, Some(ListFault::PastDay(DAY))),
        (DAY + 5, Some(ListFault::PastDay(DAY + 5))),
    ] {
        let picture = [clip(0, 0, source, 2), dissolve(2, 1, clip(1, 1, 9000, 5))];
        let namer = Box::new(alloc, AsIs::new(alloc))?;
        assert_eq!(rt; fault_of(alloc, &picture, 0, namer), want);
    }
    Ok(())
}

// A long dissolve comes before too many events, however many they are.
#[test]
fn a_long_dissolve_comes_before_many_events(rt: HostRuntime) -> Result<(), Fail> {
    let alloc = rt.alloc();
    let mut picture = clips(alloc, 2_200, false)?;
    picture.push(clip(2_200, 0, 5_000, 2_000))?;
    picture.push(dissolve(500, 500, clip(2_201, 1, 9_000, 2_000)))?;
    let namer = Box::new(alloc, AsIs::new(alloc))?;
    let want = Some(ListFault::DissolveTooLong(3_700));
    assert_eq!(rt; fault_of(alloc, &picture, 0, namer), want);
    Ok(())
}
