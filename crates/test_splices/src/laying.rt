// What can be laid, and what can't.
use composables::{ItemView, Kind, Listed, Media, Memory, Nest, Reels, Table};
use frame_meaning::{Link, What};
use std::alloc::Global;
use std::test::Fail;
use test_tracks::{clip, dissolve, gap, laid_track, linked, linked_track};

// Media 0 has the source frames [8, 60).
fn table(alloc: Global) -> Result<Table, Memory> {
    let mut kinds = Listed::new(alloc);
    kinds.push(Kind::Video)?;
    let mut media = Listed::new(alloc);
    media.push(Media {
        reel: 0,
        from: 8,
        to: 60,
    })?;
    let nests: Listed<Nest> = Listed::new(alloc);
    Ok(Table {
        kinds,
        reels: Reels::new(alloc),
        media,
        nests,
    })
}

// The link of number 0 of a home, with these tracks.
fn link(home: u32, tracks: u32) -> Link {
    Link {
        home,
        number: 0,
        tracks,
    }
}

// The number of frames of the track of these, if there is one.
fn frames(alloc: Global, views: &[ItemView]) -> Result<Option<u32>, Memory> {
    match laid_track(alloc, &table(alloc)?, 3, views)? {
        Some(track) => Ok(Some(track.length())),
        None => Ok(None),
    }
}

#[test]
fn a_track_is_laid_where_there_is_one(rt: HostRuntime) -> Result<(), Fail> {
    let first = clip(0, 0, 10, 4);
    let tied = linked(link(3, 8), first);
    for (row, views, want) in [
        (0u32, [].as_slice(), Some(0)),
        (1, [gap(3), first, clip(1, 0, 58, 2)].as_slice(), Some(9)),
        (
            2,
            [first, dissolve(2, 2, clip(1, 0, 10, 2))].as_slice(),
            Some(6),
        ),
        // past the range of the thing, before it with its dissolve, of no thing, and without frames
        (3, [first, clip(1, 0, 59, 2)].as_slice(), None),
        (
            4,
            [first, dissolve(3, 2, clip(1, 0, 10, 2))].as_slice(),
            None,
        ),
        (5, [clip(0, 1, 10, 4)].as_slice(), None),
        (6, [clip(0, 0, 10, 0)].as_slice(), None),
        // two gaps, numbers that do not rise, a dissolve at the start, a link
        (7, [gap(3), gap(2)].as_slice(), None),
        (8, [first, first].as_slice(), None),
        (9, [dissolve(1, 1, first)].as_slice(), None),
        (10, [tied].as_slice(), None),
    ] {
        assert_eq!(rt; frames(rt.alloc(), views)?, want, "row {row}");
    }
    let nest = ItemView::clip(0, What::Nest(0), 0, 1);
    assert_eq!(rt; frames(rt.alloc(), &[nest])?, None);
    Ok(())
}

// The number of frames of the track 3 of these, some of them linked, if there is one.
fn linked_frames(alloc: Global, views: &[ItemView]) -> Result<Option<u32>, Memory> {
    match linked_track(alloc, &table(alloc)?, 3, views)? {
        Some(track) => Ok(Some(track.length())),
        None => Ok(None),
    }
}

#[test]
fn a_link_has_the_track_and_its_home_among_its_tracks(rt: HostRuntime) -> Result<(), Fail> {
    for (home, tracks, want) in [
        (3, 8, Some(4)),
        (0, 9, Some(4)),
        (3, 7, None),
        (0, 8, None),
        (32, 8, None),
    ] {
        let view = linked(link(home, tracks), clip(0, 0, 10, 4));
        let frames = linked_frames(rt.alloc(), &[view])?;
        assert_eq!(rt; frames, want, "home {home} of {tracks}");
    }
    Ok(())
}
