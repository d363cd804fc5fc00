// Worked lists beside the tracks that they are of.
use crate::cuts::{Row, black_list, dropping, list_of, nest, nested_list, plain};
use composables::{ItemView, Kind};
use edl_write::{ListFault, Written};
use reel_names::{AsIs, Numbered};
use std::alloc::Global;
use std::test::Fail;
use test_cut::{LIST, NUMBERED};
use test_tracks::{clip, dissolve, gap};

const FADES: &str = "TITLE: CUT
FCM: NON-DROP FRAME
001  BL       V     C        00:00:00:00 00:00:00:00 00:00:00:08 00:00:00:08
001  R0       V     D    005 00:00:04:02 00:00:04:14 00:00:00:08 00:00:00:20
002  R0       V     C        00:00:20:20 00:00:21:02 00:00:00:20 00:00:01:02
003  R0       V     C        00:00:21:02 00:00:21:02 00:00:01:02 00:00:01:02
003  BL       V     D    002 00:00:00:00 00:00:00:04 00:00:01:02 00:00:01:06
";

const DROPPED: &str = "TITLE: CUT
FCM: DROP FRAME
001  R0       V     C        00:00:59:28 00:01:00:06 00:00:59:29 00:01:00:07
";

const EMPTY: &str = "TITLE: CUT
FCM: NON-DROP FRAME
";

const SOUND: &str = "TITLE: CUT
FCM: NON-DROP FRAME
001  R0       A     C        00:00:00:07 00:00:00:09 00:00:00:00 00:00:00:02
";

const BLACK: &str = "TITLE: CUT
FCM: NON-DROP FRAME
001  BL       V     C        00:00:00:00 00:00:00:00 00:00:00:04 00:00:00:04
001  BL       V     D    003 00:00:00:00 00:00:00:06 00:00:00:04 00:00:00:10
";

fn is_text(list: &Written, want: &str) -> bool {
    list.text.as_slice() == want.as_bytes()
}

// A list's names, each after its reel's number.
fn are_names(list: &Written, want: &[(u32, &str)]) -> bool {
    let names = list.names.as_slice();
    if names.len() != want.len() {
        return false;
    }
    for (index, (reel, name)) in want.iter().enumerate() {
        if names[index].reel != *reel || names[index].name.as_bytes() != name.as_bytes() {
            return false;
        }
    }
    true
}

#[test]
fn a_cut_has_its_list(rt: HostRuntime) -> Result<(), Fail> {
    let alloc = rt.alloc();
    let picture = [clip(0, 0, 3600, 48), dissolve(1, 2, clip(1, 1, 100, 24))];
    let title = [gap(60), clip(0, 2, 0, 6)];
    let sound = [clip(0, 0, 3600, 72)];
    let second = [gap(48), clip(0, 1, 100, 24)];
    let rows: [Row<'_>; 4] = [
        (Kind::Video, &picture),
        (Kind::Video, &title),
        (Kind::Audio, &sound),
        (Kind::Audio, &second),
    ];
    let reels = ["TAPE1", "TAPE2", "GFX1"];
    let list = list_of(
        alloc,
        &reels,
        &rows,
        plain(),
        86_400,
        Box::new(alloc, AsIs::new(alloc))?,
    )?;
    assert!(rt; is_text(&list, LIST));
    assert!(rt; are_names(&list, &[(0, "TAPE1"), (1, "TAPE2"), (2, "GFX1")]));
    let namer = Box::new(alloc, Numbered::new(alloc))?;
    let list = list_of(alloc, &reels, &rows, plain(), 86_400, namer)?;
    assert!(rt; is_text(&list, NUMBERED));
    assert!(rt; are_names(&list, &[(0, "R001"), (1, "R002"), (2, "R003")]));
    Ok(())
}

#[test]
fn a_fade_is_a_dissolve_with_black(rt: HostRuntime) -> Result<(), Fail> {
    let alloc = rt.alloc();
    let picture = [
        gap(10),
        dissolve(2, 3, clip(0, 0, 100, 10)),
        clip(1, 0, 500, 7),
        dissolve(1, 1, gap(3)),
    ];
    let namer = Box::new(alloc, AsIs::new(alloc))?;
    let list = list_of(
        alloc,
        &["R0"],
        &[(Kind::Video, &picture)],
        plain(),
        0,
        namer,
    )?;
    assert!(rt; is_text(&list, FADES));
    assert!(rt; are_names(&list, &[(0, "R0")]));
    Ok(())
}

#[test]
fn labels_have_colons_throughout(rt: HostRuntime) -> Result<(), Fail> {
    let alloc = rt.alloc();
    let picture = [clip(0, 0, 1798, 6)];
    let namer = Box::new(alloc, AsIs::new(alloc))?;
    let list = list_of(
        alloc,
        &["R0"],
        &[(Kind::Video, &picture)],
        dropping(),
        1799,
        namer,
    )?;
    assert!(rt; is_text(&list, DROPPED));
    Ok(())
}

#[test]
fn dark_tracks_have_no_events(rt: HostRuntime) -> Result<(), Fail> {
    let alloc = rt.alloc();
    let dark = [gap(10)];
    let namer = Box::new(alloc, AsIs::new(alloc))?;
    let rows: [Row<'_>; 2] = [(Kind::Video, &dark), (Kind::Audio, &dark)];
    let list = list_of(alloc, &[], &rows, plain(), 0, namer)?;
    assert!(rt; is_text(&list, EMPTY));
    assert!(rt; are_names(&list, &[]));
    Ok(())
}

#[test]
fn a_third_audio_track_has_no_channel(rt: HostRuntime) -> Result<(), Fail> {
    let alloc = rt.alloc();
    let sound = [clip(0, 0, 0, 1)];
    let rows: [Row<'_>; 3] = [
        (Kind::Audio, &sound),
        (Kind::Audio, &sound),
        (Kind::Audio, &sound),
    ];
    let namer = Box::new(alloc, AsIs::new(alloc))?;
    match list_of(alloc, &["no name"], &rows, plain(), 0, namer) {
        Err(fault) => assert_eq!(rt; fault, ListFault::Channels(3)),
        Ok(_) => assert!(rt; false),
    }
    Ok(())
}

#[test]
fn a_part_of_a_dissolve_has_no_event(rt: HostRuntime) -> Result<(), Fail> {
    let alloc = rt.alloc();
    let picture = [clip(0, 0, 3600, 48), dissolve(1, 2, clip(1, 1, 100, 24))];
    let over = [gap(49), clip(0, 2, 0, 1)];
    let rows: [Row<'_>; 2] = [(Kind::Video, &picture), (Kind::Video, &over)];
    let namer = Box::new(alloc, AsIs::new(alloc))?;
    match list_of(alloc, &["A", "B", "C"], &rows, plain(), 86_400, namer) {
        Err(fault) => assert_eq!(rt; fault, ListFault::PartialDissolve(47)),
        Ok(_) => assert!(rt; false),
    }
    Ok(())
}

#[test]
fn one_track_of_sound_is_the_first_channel(rt: HostRuntime) -> Result<(), Fail> {
    let alloc = rt.alloc();
    let sound = [clip(0, 0, 7, 2)];
    let rows: [Row<'_>; 1] = [(Kind::Audio, &sound)];
    let namer = Box::new(alloc, AsIs::new(alloc))?;
    let list = list_of(alloc, &["R0"], &rows, plain(), 0, namer)?;
    assert!(rt; is_text(&list, SOUND));
    Ok(())
}

// What no table has is black. A dissolve from black to black is seen, as no gap is.
#[test]
fn a_dissolve_from_black_to_black_is_an_event(rt: HostRuntime) -> Result<(), Fail> {
    let alloc = rt.alloc();
    let picture = [clip(0, 0, 5, 5), dissolve(1, 2, clip(1, 1, 100, 5))];
    let rows: [Row<'_>; 1] = [(Kind::Video, &picture)];
    let namer = Box::new(alloc, AsIs::new(alloc))?;
    let list = black_list(alloc, &rows, namer)?;
    assert!(rt; is_text(&list, BLACK));
    assert!(rt; are_names(&list, &[]));
    Ok(())
}

// The place of the part that is told of two tracks of sound and a nest whose dissolve lies from its frame 2 to its 6th.
fn part_told(alloc: Global, first: &[ItemView], second: &[ItemView]) -> Result<Option<u32>, Fail> {
    let nested = [clip(0, 0, 10, 4), dissolve(2, 2, clip(1, 1, 90, 6))];
    let rows: [Row<'_>; 2] = [(Kind::Audio, first), (Kind::Audio, second)];
    let namer = Box::new(alloc, AsIs::new(alloc))?;
    match nested_list(alloc, &["A", "B"], &[nested.as_slice()], &rows, namer) {
        Err(ListFault::PartialDissolve(place)) => Ok(Some(place)),
        _ => Ok(None),
    }
}

// Parts are told of the first track before the second, and before a dissolve that is too long.
#[test]
fn the_first_part_of_a_dissolve_is_told(rt: HostRuntime) -> Result<(), Fail> {
    let alloc = rt.alloc();
    let part = [nest(0, 0, 3, 5)];
    let late = [gap(7), nest(0, 0, 3, 5)];
    let long = [
        clip(0, 0, 5000, 2000),
        dissolve(500, 500, clip(1, 1, 9000, 2000)),
    ];
    for (first, second, want) in [
        (late.as_slice(), part.as_slice(), 7),
        (part.as_slice(), late.as_slice(), 0),
        (long.as_slice(), late.as_slice(), 7),
    ] {
        assert_eq!(rt; part_told(alloc, first, second)?, Some(want));
    }
    Ok(())
}
