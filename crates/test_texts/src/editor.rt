// What an editor says and does to the tracks of a small room, by worked examples.

ghost use Rattle.std.specs.Prelude.{◌≡◌, ◌<◌, ◌≤◌, [], ◌∷◌, IfOk};
ghost use Rattle.composables.specs.Bounds.{bounds_of};
ghost use Rattle.composables.specs.Views.{clip_view};
ghost use Rattle.edit_apply.specs.Apply.{names_of};
ghost use Rattle.edit_apply.specs.RoomTracks.{IsTrackOf};

use composables::{
    Done, Insert, ItemView, Kind, Link3, Listed, MAX_ITEMS, Media, Memory, Overwrite, Reels,
    Refusal, Table, Track,
};
use edit_apply::{Ask, AskRefusal, Call, Editor};
use frame_meaning::What;
use reply_text::items_text;
use room_core::{Fault, PartObject};
use std::alloc::Global;
use std::marker::Brand;
use std::process::Abort;
use std::sync::ledger::{Blank, Ledger};
use std::test::Fail;
use step_count::Steps;

// Two tracks, and media 0 with the frames [0, 86400).
fn two_tracks(alloc: Global) -> Result<Editor, Memory>
    ensures { IfOk result (λ editor. bounds_of editor.table (What.Media 0) ≡ Some (0, 86400)) }
{
    let mut kinds = Listed::new(alloc);
    kinds.push(Kind::Video)?;
    kinds.push(Kind::Audio)?;
    let mut media = Listed::new(alloc);
    media.push(Media {
        reel: 0,
        from: 0,
        to: 86_400,
    })?;
    Ok(Editor {
        table: Table {
            kinds,
            reels: Reels::new(alloc),
            media,
            nests: Listed::new(alloc),
        },
    })
}

// An overwrite of the first frame of a track.
fn overwrite_on(track: u32) -> Call {
    Call::Overwrite(Overwrite {
        track,
        at: 0,
        what: What::Media(0),
        from: 0,
        len: 1,
        keep: false,
    })
}

// An insert of a frame into a track, over a set of tracks.
fn insert_on(tracks: u32, track: u32) -> Call {
    Call::Insert(Insert {
        tracks,
        track,
        at: 0,
        what: What::Media(0),
        from: 0,
        len: 1,
        keep: false,
    })
}

// A link of no items over a set of tracks.
fn link_on(alloc: Global, tracks: u32) -> Call {
    Call::Link3(Link3 {
        tracks,
        items: Listed::new(alloc),
    })
}

// A question for a range that ends before it begins.
fn view_of(track: u32) -> Ask {
    Ask::View { track, a: 5, b: 4 }
}

#[test]
fn a_call_names_its_tracks(rt: HostRuntime) -> Result<(), Fail> {
    let editor = two_tracks(rt.alloc())?;
    assert_eq!(rt; editor.names(&overwrite_on(0)), 1);
    assert_eq!(rt; editor.names(&overwrite_on(31)), 2_147_483_648);
    assert_eq!(rt; editor.names(&overwrite_on(32)), 0);
    assert_eq!(rt; editor.names(&insert_on(5, 1)), 5);
    assert_eq!(rt; editor.names(&insert_on(0, 9)), 0);
    assert_eq!(rt; editor.names(&insert_on(4_294_967_295, 9)), 4_294_967_295);
    Ok(())
}

#[test]
fn the_first_wrong_track_is_told(rt: HostRuntime) -> Result<(), Fail> {
    let editor = two_tracks(rt.alloc())?;
    for (tracks, track, wrong) in [
        (3u32, 1u32, None),
        (2, 0, Some(0u32)),
        (3, 32, Some(32)),
        (0, 1, Some(1)),
        (12, 0, Some(2)),
        (2_147_483_648, 0, Some(31)),
    ] {
        let refusal = match wrong {
            Some(n) => Some(Refusal::NoTrack(n)),
            None => None,
        };
        assert_eq!(rt;
            editor.refuse_names(&insert_on(tracks, track)),
            refusal,
            "{tracks} {track}"
        );
    }
    Ok(())
}

#[test]
fn a_link_names_its_tracks(rt: HostRuntime) -> Result<(), Fail> {
    let editor = two_tracks(rt.alloc())?;
    for (tracks, wrong) in [
        (3u32, None),
        (2, None),
        (0, Some(0u32)),
        (6, Some(2)),
        (2_147_483_648, Some(31)),
    ] {
        let call = link_on(rt.alloc(), tracks);
        let refusal = match wrong {
            Some(n) => Some(Refusal::NoTrack(n)),
            None => None,
        };
        assert_eq!(rt; editor.names(&call), tracks, "{tracks}");
        assert_eq!(rt; editor.refuse_names(&call), refusal, "{tracks}");
    }
    Ok(())
}

#[test]
fn a_track_of_no_room_is_refused(rt: HostRuntime) -> Result<(), Fail> {
    let editor = two_tracks(rt.alloc())?;
    assert_eq!(rt; editor.refuse_names(&overwrite_on(1)), None);
    assert_eq!(rt; editor.ask_part(&Ask::Items { track: 1 }), Ok(1));
    assert_eq!(rt; editor.ask_part(&view_of(1)), Ok(1));
    for track in [2u32, 32] {
        assert_eq!(rt;
            editor.refuse_names(&overwrite_on(track)),
            Some(Refusal::NoTrack(track))
        );
        assert_eq!(rt;
            editor.ask_part(&Ask::Items { track }),
            Err(AskRefusal::NoTrack(track))
        );
        assert_eq!(rt;
            editor.ask_part(&view_of(track)),
            Err(AskRefusal::NoTrack(track))
        );
    }
    Ok(())
}

// An item of one frame.
fn one_frame(number: u32) -> ItemView
    ensures { result ≡ clip_view number (What.Media 0) 0 1 }
{
    ItemView::clip(number, What::Media(0), 0, 1)
}

// Track 0 with this many items of one frame each.
fn track_of_items(alloc: Global, table: &Table, count: u32) -> Result<Track, Memory>
    requires media { bounds_of table.now (What.Media 0) ≡ Some (0, 86400) }
    requires count { count ≤ MAX_ITEMS }
    ensures { IfOk result (λ track. IsTrackOf table.now 0 track) }
{
    let mut track = Track::empty(alloc, 0);
    for number in 0..count {
        track.push(one_frame(number))?;
    }
    Ok(track)
}

#[test]
fn the_items_of_a_track_have_a_text(rt: HostRuntime) -> Result<(), Fail> {
    let alloc = rt.alloc();
    let editor = two_tracks(alloc)?;
    for (count, want) in [(0u32, ""), (1, " 0 @0 0 1"), (2, " 0 @0 0 1 1 @0 0 1")] {
        let track = track_of_items(alloc, &editor.table, count)?;
        let text = items_text(alloc, &track)?;
        assert_eq!(rt; text.as_slice(), want.as_bytes(), "{count}");
    }
    Ok(())
}

// Does a call on track 0 alone, unless its names are refused.
fn apply_on_zero<L: Ledger>(
    rt: &impl Abort,
    alloc: Global,
    blank: Blank,
    editor: &Editor,
    track: Track,
    call: &Call,
) -> Result<Result<Done, Fault<Refusal>>, Memory>
    requires blank { (blank.name ≡ L.name) × (blank.parts ≡ L.parts) × (0 < blank.parts) }
    requires names { names_of call.now ≡ 0 ∷ [] }
    requires good { IsTrackOf editor.now.table 0 track }
{
    let mut steps = Steps::<L>::new(blank);
    assert!(rt; track.next_item() <= 2_147_483_648);
    assert!(rt; track.next_link() <= 2_147_483_648);
    let mut parts = Vec::new(alloc);
    parts.push(track)?;
    match editor.refuse_names(call) {
        None => Ok(editor.apply(alloc, &mut parts, call, &mut steps)),
        Some(refusal) => Ok(Err(Fault::Refused(refusal))),
    }
}

#[test]
fn a_track_has_65536_items_at_most(rt: HostRuntime) -> Result<(), Fail> {
    let alloc = rt.alloc();
    let editor = two_tracks(alloc)?;
    for (at, answer) in [
        (65_536, Err(Fault::Refused(Refusal::TooManyItems(0)))),
        (65_535, Ok(Done::Item(65_536))),
    ] {
        let track = track_of_items(alloc, &editor.table, MAX_ITEMS)?;
        let call = Call::Overwrite(Overwrite {
            track: 0,
            at,
            what: What::Media(0),
            from: 9,
            len: 1,
            keep: false,
        });
        let last = apply_on_zero::<Brand>(&rt, alloc, Blank::new(1), &editor, track, &call)?;
        assert_eq!(rt; last, answer);
    }
    Ok(())
}
