// What is shown of as many tracks as a set of tracks can name, and of a track that is as long as one may be.
use crate::tables::{add_track, shown, table_of};
use composables::{ItemView, Kind, Listed, Memory};
use dissolves::runs_in;
use flatten::Shown;
use frame_meaning::{Frame, Run, What};
use std::alloc::Global;
use std::test::Fail;
use test_tracks::{clip, gap, laid_track};

// What 32 tracks show, of which each is a frame shorter than the one below it: track t shows the source frames from t
// up to before 32.
fn shown_of_32(alloc: Global) -> Result<Listed<Run<u32>>, Memory> {
    let table = table_of(alloc, &[Kind::Video; 32])?;
    let mut tracks = Vec::new(alloc);
    for number in 0..32_u32 {
        let view = clip(0, number % 6, number, 32_u32.saturating_sub(number));
        add_track(&mut tracks, alloc, &table, &[view])?;
    }
    let Shown { video, audio: _ } = shown(alloc, &table, &tracks)?;
    Ok(video)
}

// At each place the last track that is so long is seen, with its source frame 31.
#[test]
fn each_of_32_tracks_is_seen(rt: HostRuntime) -> Result<(), Fail> {
    let video = shown_of_32(rt.alloc())?;
    assert_eq!(rt; video.as_slice().len(), 32);
    for (run, place) in video.as_slice().iter().zip(0_u32..32) {
        let reel = 31_u32.saturating_sub(place) % 6 / 2;
        let frame = Frame::Pic {
            what: reel,
            source: 31,
        };
        assert!(rt; *run == Run { frame, len: 1 }, "at {place}");
    }
    Ok(())
}

// 65,535 clips, each of the same 39 source frames, and a gap: 65,536 items and gaps, 2,592,000 frames.
fn longest(alloc: Global) -> Result<Vec<ItemView>, Memory> {
    let mut views = Vec::new(alloc);
    for number in 0..65_535_u32 {
        views.push(clip(number, 0, 10, 39))?;
    }
    views.push(gap(36_135))?;
    Ok(views)
}

// What such a track shows as a channel.
fn channel_of_longest(alloc: Global) -> Result<Listed<Run<u32>>, Memory> {
    let table = table_of(alloc, &[Kind::Video])?;
    let mut tracks = Vec::new(alloc);
    add_track(&mut tracks, alloc, &table, &longest(alloc)?)?;
    let Shown { video, audio: _ } = shown(alloc, &table, &tracks)?;
    Ok(video)
}

// What it shows in all its places.
fn view_of_longest(alloc: Global) -> Result<Vec<Run<What>>, Memory> {
    let table = table_of(alloc, &[Kind::Video])?;
    let Some(track) = laid_track(alloc, &table, 0, &longest(alloc)?)? else {
        return Ok(Vec::new(alloc));
    };
    if track.length() != 2_592_000 {
        return Ok(Vec::new(alloc));
    }
    runs_in(alloc, &track, 0, 2_592_000)
}

#[test]
fn the_longest_track_is_seen(rt: HostRuntime) -> Result<(), Fail> {
    let video = channel_of_longest(rt.alloc())?;
    assert_eq!(rt; video.as_slice().len(), 65_536);
    let view = view_of_longest(rt.alloc())?;
    assert_eq!(rt; view.len(), 65_536);
    for (run, seen) in video.as_slice().iter().zip(&view).take(65_535) {
        assert_eq!(rt; (run.len, seen.len), (39, 39));
    }
    let last = view.last().ok_or("a run")?;
    assert!(rt; last.len == 36_135 && last.frame == Frame::Dark);
    Ok(())
}
