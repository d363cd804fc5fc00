// Calls by their fields, and their texts.

use call_text::{Deed, Entry, Step, call_text, journal_text};
use composables::{
    Dissolve, End, Extract, Fill, FillLength, Insert, Link3, Numbers, Overwrite, Remove, Ripple,
    Roll, Slice, Slide, Slip, Trim, Undissolve, Unlink,
};
use edit_apply::Call;
use frame_meaning::What;
use std::test::Fail;

// A call, and its text.
type Written = (Call, &'static str);

// The step that does a call, for a station whose number is in no text.
fn doing(call: Call) -> Step<Call> {
    Step {
        by: 9,
        act: Deed::Do(call),
    }
}

// Calls that put and take.
fn put_or_taken(row: u32) -> Option<Written> {
    match row {
        0 => Some((
            Call::Overwrite(Overwrite {
                track: 1,
                at: 20,
                what: What::Media(3),
                from: 400,
                len: 5000,
                keep: false,
            }),
            "overwrite 1 20 @3 400 5000",
        )),
        1 => Some((
            Call::Insert(Insert {
                tracks: 5,
                track: 2,
                at: 24,
                what: What::Nest(7),
                from: 8,
                len: 6,
                keep: false,
            }),
            "insert 0,2 2 24 #7 8 6",
        )),
        2 => Some((
            Call::Remove(Remove {
                track: 1,
                item: 0,
                keep: false,
            }),
            "remove 1 0",
        )),
        3 => Some((
            Call::Extract(Extract {
                tracks: 2147483650,
                track: 31,
                item: 8,
                keep: false,
            }),
            "extract 1,31 31 8",
        )),
        4 => Some((
            Call::Slice(Slice {
                track: 3,
                at: 10,
                keep: false,
            }),
            "slice 3 10",
        )),
        5 => Some((
            Call::Fill(Fill {
                track: 1,
                at: 20,
                what: What::Media(3),
                from: 400,
                length: FillLength::Sequence,
                keep: false,
            }),
            "fill 1 20 @3 400 sequence",
        )),
        6 => Some((
            Call::Fill(Fill {
                track: 1,
                at: 20,
                what: What::Media(3),
                from: 400,
                length: FillLength::Source(7),
                keep: false,
            }),
            "fill 1 20 @3 400 source 7",
        )),
        _ => None,
    }
}

#[test]
fn calls_that_put_and_take_have_these_texts(rt: HostRuntime) -> Result<(), Fail> {
    for row in 0..7u32 {
        let (call, want) = put_or_taken(row).ok_or("a row")?;
        let text = call_text(rt.alloc(), &doing(call))?;
        assert_eq!(rt; text.as_slice(), want.as_bytes(), "row {row}");
    }
    Ok(())
}

// Calls that keep dissolves, and their texts.
fn kept(row: u32) -> Option<Written> {
    match row {
        0 => Some((
            Call::Overwrite(Overwrite {
                track: 1,
                at: 20,
                what: What::Media(3),
                from: 400,
                len: 5000,
                keep: true,
            }),
            "overwrite 1 20 @3 400 5000 keep",
        )),
        1 => Some((
            Call::Insert(Insert {
                tracks: 5,
                track: 2,
                at: 24,
                what: What::Nest(7),
                from: 8,
                len: 6,
                keep: true,
            }),
            "insert 0,2 2 24 #7 8 6 keep",
        )),
        2 => Some((
            Call::Remove(Remove {
                track: 1,
                item: 0,
                keep: true,
            }),
            "remove 1 0 keep",
        )),
        3 => Some((
            Call::Extract(Extract {
                tracks: 2147483650,
                track: 31,
                item: 8,
                keep: true,
            }),
            "extract 1,31 31 8 keep",
        )),
        4 => Some((
            Call::Slice(Slice {
                track: 3,
                at: 10,
                keep: true,
            }),
            "slice 3 10 keep",
        )),
        5 => Some((
            Call::Fill(Fill {
                track: 1,
                at: 20,
                what: What::Media(3),
                from: 400,
                length: FillLength::Sequence,
                keep: true,
            }),
            "fill 1 20 @3 400 sequence keep",
        )),
        6 => Some((
            Call::Fill(Fill {
                track: 1,
                at: 20,
                what: What::Media(3),
                from: 400,
                length: FillLength::Source(7),
                keep: true,
            }),
            "fill 1 20 @3 400 source 7 keep",
        )),
        _ => None,
    }
}

#[test]
fn calls_that_keep_dissolves_have_these_texts(rt: HostRuntime) -> Result<(), Fail> {
    for row in 0..7u32 {
        let (call, want) = kept(row).ok_or("a row")?;
        let text = call_text(rt.alloc(), &doing(call))?;
        assert_eq!(rt; text.as_slice(), want.as_bytes(), "row {row}");
    }
    Ok(())
}

// Calls that move.
fn moved(row: u32) -> Option<Written> {
    match row {
        0 => Some((
            Call::Dissolve(Dissolve {
                track: 3,
                at: 10,
                a: 1,
                b: 2,
            }),
            "dissolve 3 10 1 2",
        )),
        1 => Some((
            Call::Undissolve(Undissolve { track: 3, at: 10 }),
            "undissolve 3 10",
        )),
        2 => Some((
            Call::Trim(Trim {
                track: 3,
                item: 10,
                end: End::Tail,
                by: 0,
            }),
            "trim 3 10 tail 0",
        )),
        3 => Some((
            Call::Slip(Slip {
                tracks: 24,
                track: 4,
                item: 10,
                by: -2147483648,
            }),
            "slip 3,4 4 10 -2147483648",
        )),
        4 => Some((
            Call::Roll(Roll {
                track: 3,
                at: 10,
                by: 2147483647,
            }),
            "roll 3 10 2147483647",
        )),
        5 => Some((
            Call::Slide(Slide {
                tracks: 10,
                track: 3,
                item: 10,
                by: -1,
            }),
            "slide 1,3 3 10 -1",
        )),
        6 => Some((
            Call::Ripple(Ripple {
                tracks: 9,
                track: 3,
                item: 10,
                end: End::Head,
                by: -1,
            }),
            "ripple 0,3 3 10 head -1",
        )),
        _ => None,
    }
}

#[test]
fn calls_that_move_have_these_texts(rt: HostRuntime) -> Result<(), Fail> {
    for row in 0..7u32 {
        let (call, want) = moved(row).ok_or("a row")?;
        let text = call_text(rt.alloc(), &doing(call))?;
        assert_eq!(rt; text.as_slice(), want.as_bytes(), "row {row}");
    }
    Ok(())
}

#[test]
fn links_have_these_texts(rt: HostRuntime) -> Result<(), Fail> {
    let items = Numbers::from_vec(Vec::from_slice(rt.alloc(), &[7, 0, 4294967295])?);
    let link = doing(Call::Link3(Link3 { tracks: 11, items }));
    let link = call_text(rt.alloc(), &link)?;
    assert_eq!(rt; link.as_slice(), b"link 0,1,3 7,0,4294967295".as_slice());
    let unlink = doing(Call::Unlink(Unlink { track: 3, item: 10 }));
    let unlink = call_text(rt.alloc(), &unlink)?;
    assert_eq!(rt; unlink.as_slice(), b"unlink 3 10".as_slice());
    Ok(())
}

// Each row is a set of tracks, and the text of the taking back of their last edit.
const TAKEN_BACK: [(u32, &str); 4] = [
    (1, "back 0"),
    (2147483648, "back 31"),
    (2147483651, "back 0,1,31"),
    (
        4294967295,
        "back 0,1,2,3,4,5,6,7,8,9,10,11,12,13,14,15,16,17,18,19,20,21,22,23,24,25,26,27,28,29,30,31",
    ),
];

#[test]
fn takings_back_have_these_texts(rt: HostRuntime) -> Result<(), Fail> {
    for (tracks, want) in TAKEN_BACK {
        let back = Step {
            by: 9,
            act: Deed::Back { tracks },
        };
        let text = call_text(rt.alloc(), &back)?;
        assert_eq!(rt; text.as_slice(), want.as_bytes(), "tracks {tracks}");
    }
    Ok(())
}

#[test]
fn an_entry_has_its_station_and_its_number(rt: HostRuntime) -> Result<(), Fail> {
    let entry = Entry {
        station: 15,
        number: 70,
        call: doing(Call::Slice(Slice {
            track: 3,
            at: 10,
            keep: true,
        })),
    };
    let text = journal_text(rt.alloc(), &[entry])?;
    assert_eq!(rt;
        text.as_slice(),
        b"journal 1\n15 70 slice 3 10 keep\n".as_slice()
    );
    Ok(())
}
