// Lists beside the tracks that they make.
use crate::lists::opened;
use composables::{ItemView, Table, Track};
use frame_meaning::{Mark, Side, What};
use otio_json::Opening;
use std::alloc::Global;
use std::test::Fail;
use test_cut::LIST;

// An item or gap: its number, the media and the source frame that it shows, its frames, and the mark before it.
type Row = (Option<u32>, Option<(u32, u32)>, u32, Option<(u32, u32)>);

// The tracks of the worked list.
const WORKED_V: [Row; 5] = [
    (Some(0), Some((0, 3600)), 47, None),
    (Some(1), Some((0, 3647)), 3, None),
    (Some(2), Some((1, 102)), 10, Some((3, 0))),
    (Some(3), Some((2, 0)), 6, None),
    (Some(4), Some((1, 118)), 6, None),
];

const WORKED_A: [Row; 1] = [(Some(0), Some((0, 3600)), 72, None)];

const WORKED_A2: [Row; 2] = [(None, None, 48, None), (Some(0), Some((1, 100)), 24, None)];

// The later event stands first. The first event of the record dissolves from black to a reel in all its frames; the other
// dissolves from a reel to black. A last event is black, on a channel of sound.
const TURNED: &str = "1 C V C 00:00:00:00 00:00:00:00 00:00:01:00 00:00:01:00
1 BL V D 002 00:00:00:00 00:00:00:05 00:00:01:00 00:00:01:05
2 BL V C 00:00:00:00 00:00:00:00 00:00:00:10 00:00:00:10
2 B V D 003 00:00:00:07 00:00:00:10 00:00:00:10 00:00:00:13
3 BL A C 00:00:00:00 00:00:00:04 00:00:00:10 00:00:00:14
";

const TURNED_V: [Row; 5] = [
    (None, None, 2, None),
    (Some(0), Some((1, 9)), 1, Some((2, 1))),
    (None, None, 11, None),
    (Some(1), Some((0, 0)), 2, None),
    (None, None, 3, Some((2, 0))),
];

const TURNED_A: [Row; 1] = [(None, None, 4, None)];

// An event of 1,000,001 frames.
const LONG: &str = "1 R V C 00:00:00:00 11:34:26:17 00:00:00:00 11:34:26:17\n";

const LONG_V: [Row; 1] = [(Some(0), Some((0, 0)), 1_000_001, None)];

const NO_ROWS: [Row; 0] = [];

// A media entry and a source frame as a side; none is dark.
fn side(shown: Option<(u32, u32)>) -> Side<What> {
    match shown {
        None => Side::Dark,
        Some((media, source)) => Side::Pic {
            what: What::Media(media),
            source,
        },
    }
}

// The frames before and after a cut as a dissolve; none is none.
fn mark(frames: Option<(u32, u32)>) -> Option<Mark> {
    match frames {
        None => None,
        Some((a, b)) => Some(Mark { a, b }),
    }
}

// An item or gap of a row.
fn view(row: Row) -> ItemView {
    let (item, shown, len, frames) = row;
    ItemView {
        item,
        first: side(shown),
        len,
        mark: mark(frames),
        link: None,
    }
}

// Whether a track has these items and gaps, and no others.
fn has_rows(track: &Track, rows: &[Row]) -> bool {
    if track.count() as usize != rows.len() {
        return false;
    }
    for (index, row) in rows.iter().enumerate() {
        if track.item(index as u32) != Some(view(*row)) {
            return false;
        }
    }
    true
}

// Whether the picture and the two channels of sound have these rows.
fn has_tracks(opening: &Opening, rows: [&[Row]; 3]) -> bool {
    let tracks = opening.tracks.as_slice();
    tracks.len() == 3
        && has_rows(&tracks[0], rows[0])
        && has_rows(&tracks[1], rows[1])
        && has_rows(&tracks[2], rows[2])
}

// Whether the table has these reels, in this order.
fn has_reels(table: &Table, names: &[&str]) -> bool {
    if table.reels.count() as usize != names.len() {
        return false;
    }
    for (reel, name) in names.iter().enumerate() {
        if table.reels.name(reel as u32) != Some(*name) {
            return false;
        }
    }
    true
}

#[test]
fn a_list_has_a_track_for_each_channel(rt: HostRuntime) -> Result<(), Fail> {
    let opening = opened(rt.alloc(), LIST.as_bytes(), false)?;
    assert_eq!(rt; opening.start, 86_400);
    assert!(rt; has_reels(&opening.table, &["TAPE1", "TAPE2", "GFX1"]));
    assert!(rt; has_tracks(&opening, [&WORKED_V, &WORKED_A, &WORKED_A2]));
    Ok(())
}

#[test]
fn events_are_laid_by_their_record_ins(rt: HostRuntime) -> Result<(), Fail> {
    let opening = opened(rt.alloc(), TURNED.as_bytes(), false)?;
    assert_eq!(rt; opening.start, 10);
    assert!(rt; has_reels(&opening.table, &["C", "B"]));
    assert!(rt; has_tracks(&opening, [&TURNED_V, &TURNED_A, &NO_ROWS]));
    Ok(())
}

// Its item has no link, as no item has that a list makes.
#[test]
fn a_long_event_is_one_item(rt: HostRuntime) -> Result<(), Fail> {
    let opening = opened(rt.alloc(), LONG.as_bytes(), false)?;
    assert_eq!(rt; opening.start, 0);
    assert!(rt; has_reels(&opening.table, &["R"]));
    assert!(rt; has_tracks(&opening, [&LONG_V, &NO_ROWS, &NO_ROWS]));
    Ok(())
}

#[test]
fn an_empty_list_has_three_empty_tracks(rt: HostRuntime) -> Result<(), Fail> {
    let opening = opened(rt.alloc(), b"TITLE: NONE\n", false)?;
    assert_eq!(rt; opening.start, 0);
    assert!(rt; has_reels(&opening.table, &[]));
    assert!(rt; has_tracks(&opening, [&NO_ROWS, &NO_ROWS, &NO_ROWS]));
    Ok(())
}
