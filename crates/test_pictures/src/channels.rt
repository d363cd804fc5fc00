// Worked channels.
use crate::tables::{LayerRow, add_nest, add_track, nest, shown, table_of};
use composables::{ItemView, Kind, Listed, Memory, Table};
use flatten::Shown;
use frame_meaning::{Frame, Run, Side};
use std::alloc::Global;
use std::test::Fail;
use test_tracks::{clip, dissolve, gap};

// A source frame of a reel, as a side.
fn at(what: u32, source: u32) -> Side<u32> {
    Side::Pic { what, source }
}

// So many frames of a reel from a source frame on.
fn pic(what: u32, source: u32, len: u32) -> Run<u32> {
    Run {
        frame: Frame::Pic { what, source },
        len,
    }
}

fn dark(len: u32) -> Run<u32> {
    Run {
        frame: Frame::Dark,
        len,
    }
}

// Mixed frames, of which the first has this weight of so many.
fn mix(left: Side<u32>, right: Side<u32>, weight: (u32, u32), len: u32) -> Run<u32> {
    let (num, den) = weight;
    Run {
        frame: Frame::Mix {
            left,
            right,
            num,
            den,
        },
        len,
    }
}

// What two tracks show by a table.
fn shown_of(
    alloc: Global,
    table: &Table,
    first: &[ItemView],
    second: &[ItemView],
) -> Result<Shown, Memory> {
    let mut tracks = Vec::new(alloc);
    add_track(&mut tracks, alloc, table, first)?;
    add_track(&mut tracks, alloc, table, second)?;
    shown(alloc, table, &tracks)
}

// The video channel of two tracks, the second over the first, where a nest of six frames has these layers.
fn stack_of(
    alloc: Global,
    layers: &[LayerRow<'_>],
    lower: &[ItemView],
    upper: &[ItemView],
) -> Result<Listed<Run<u32>>, Memory> {
    let mut table = table_of(alloc, &[Kind::Video, Kind::Video])?;
    add_nest(&mut table, alloc, 6, layers)?;
    let Shown { video, audio: _ } = shown_of(alloc, &table, lower, upper)?;
    Ok(video)
}

#[test]
fn a_channel_shows_the_topmost_that_is_not_dark(rt: HostRuntime) -> Result<(), Fail> {
    let cut = [clip(0, 0, 10, 4), dissolve(2, 2, clip(1, 2, 50, 4))];
    for (lower, upper, want) in [
        // a dissolve below a gap
        (
            cut.as_slice(),
            [gap(4), clip(0, 4, 70, 1)].as_slice(),
            [
                pic(0, 10, 2),
                mix(at(0, 12), at(1, 48), (1, 5), 2),
                pic(2, 70, 1),
                mix(at(0, 15), at(1, 51), (4, 5), 1),
                pic(1, 52, 2),
            ]
            .as_slice(),
        ),
        // a fade from black over a picture
        (
            &[clip(0, 4, 70, 9)],
            &[gap(3), dissolve(2, 1, clip(0, 2, 50, 3))],
            &[
                pic(2, 70, 1),
                mix(Side::Dark, at(1, 48), (1, 4), 3),
                pic(1, 51, 2),
                pic(2, 76, 3),
            ],
        ),
        // a shorter track over a longer one
        (&cut, &[clip(0, 4, 70, 7)], &[pic(2, 70, 7), pic(1, 53, 1)]),
    ] {
        assert_eq!(rt;
            stack_of(rt.alloc(), &[], lower, upper)?.as_slice(),
            want,
            "{want:?}"
        );
    }
    Ok(())
}

#[test]
fn a_nest_shows_its_topmost_layer(rt: HostRuntime) -> Result<(), Fail> {
    let picture = [clip(0, 0, 10, 6)];
    let above = [gap(2), clip(0, 2, 50, 2)];
    let layers = [(picture.as_slice(), 0, 6), (above.as_slice(), 0, 4)];
    let want = [pic(0, 11, 1), pic(1, 50, 2), pic(0, 14, 1)];
    let video = stack_of(rt.alloc(), &layers, &[], &[nest(0, 0, 1, 4)])?;
    assert_eq!(rt; video.as_slice(), want.as_slice());
    Ok(())
}

// The video channel of a track over which lies a nest of six frames, shown from one of its frames on, with one layer:
// the places [from, to) of these.
fn below_a_nest(
    alloc: Global,
    layer: LayerRow<'_>,
    lower: &[ItemView],
    source: u32,
) -> Result<Listed<Run<u32>>, Memory> {
    let upper = nest(0, 0, source, 6_u32.saturating_sub(source));
    stack_of(alloc, &[layer], lower, &[upper])
}

#[test]
fn a_nest_is_dark_where_its_layer_ends(rt: HostRuntime) -> Result<(), Fail> {
    let picture = [clip(0, 0, 10, 6)];
    let cut = [clip(0, 0, 10, 4), dissolve(2, 2, clip(1, 2, 50, 4))];
    let other = [clip(0, 4, 70, 6)];
    for (layer, lower, source, want) in [
        (
            (picture.as_slice(), 2, 5),
            [].as_slice(),
            1,
            [pic(0, 13, 2), dark(3)].as_slice(),
        ),
        // there a dissolve below is seen
        (
            (&picture, 2, 5),
            &cut,
            0,
            &[
                pic(0, 12, 3),
                mix(at(0, 13), at(1, 49), (2, 5), 3),
                pic(1, 52, 2),
            ],
        ),
        // a dissolve in which the layer ends
        (
            (&cut, 0, 4),
            &other,
            1,
            &[
                pic(0, 11, 1),
                mix(at(0, 12), at(1, 48), (1, 5), 2),
                pic(2, 73, 3),
            ],
        ),
    ] {
        let video = below_a_nest(rt.alloc(), layer, lower, source)?;
        assert_eq!(rt; video.as_slice(), want, "{want:?}");
    }
    Ok(())
}

// What 32 tracks show, each over the ones before it and a frame shorter: the topmost of each frame is another track.
fn stairs(alloc: Global) -> Result<Shown, Memory> {
    let kinds = [Kind::Video; 32];
    let table = table_of(alloc, &kinds)?;
    let mut tracks = Vec::new(alloc);
    for t in 0_u32..32 {
        let views = [clip(0, 0, 2 * t, 32_u32.saturating_sub(t))];
        add_track(&mut tracks, alloc, &table, &views)?;
    }
    shown(alloc, &table, &tracks)
}

#[test]
fn each_of_32_tracks_is_seen(rt: HostRuntime) -> Result<(), Fail> {
    let Shown { video, audio: _ } = stairs(rt.alloc())?;
    assert_eq!(rt; video.as_slice().len(), 32);
    for (place, run) in (0_u32..32).zip(video.as_slice()) {
        let top = 31_u32.saturating_sub(place);
        assert_eq!(rt;
            *run,
            pic(0, top.saturating_mul(2).saturating_add(place), 1),
            "{place}"
        );
    }
    Ok(())
}

// The audio channel of a track, where it has one of its own and no video.
fn audio_of(alloc: Global, views: &[ItemView]) -> Result<Vec<Run<u32>>, Memory> {
    let table = table_of(alloc, &[Kind::Audio, Kind::Video])?;
    let Shown { video, audio } = shown_of(alloc, &table, views, &[])?;
    match audio.into_vec().pop() {
        Some(channel) if video.as_slice().is_empty() => Ok(channel.into_vec()),
        _ => Ok(Vec::new(alloc)),
    }
}

#[test]
fn media_of_one_reel_go_on(rt: HostRuntime) -> Result<(), Fail> {
    let views = [clip(0, 0, 10, 3), clip(1, 1, 13, 2), clip(2, 2, 15, 1)];
    let want = [pic(0, 10, 5), pic(1, 15, 1)];
    assert_eq!(rt; audio_of(rt.alloc(), &views)?.as_slice(), want.as_slice());
    Ok(())
}

// Adds eight nests: the first shows one clip, and each other what the one before shows from its frame 2 on, and one
// frame more.
fn add_eight_nests(table: &mut Table, alloc: Global) -> Result<(), Memory> {
    add_nest(table, alloc, 20, &[(&[clip(0, 4, 50, 20)], 0, 20)])?;
    for j in 1_u32..8 {
        let length = 20_u32.saturating_sub(j);
        let inner = nest(0, j - 1, 2, length.saturating_sub(1));
        let last = clip(1, 0, j.saturating_mul(10), 1);
        add_nest(table, alloc, length, &[(&[inner, last], 0, length)])?;
    }
    Ok(())
}

// The video channel of a track that shows the last of them from its frame 1 on.
fn last_of_eight(alloc: Global) -> Result<Listed<Run<u32>>, Memory> {
    let mut table = table_of(alloc, &[Kind::Video])?;
    add_eight_nests(&mut table, alloc)?;
    let Shown { video, audio: _ } = shown_of(alloc, &table, &[nest(0, 7, 1, 12)], &[])?;
    Ok(video)
}

#[test]
fn nests_stand_in_one_another(rt: HostRuntime) -> Result<(), Fail> {
    let want = [
        pic(2, 65, 5),
        pic(0, 10, 1),
        pic(0, 20, 1),
        pic(0, 30, 1),
        pic(0, 40, 1),
        pic(0, 50, 1),
        pic(0, 60, 1),
        pic(0, 70, 1),
    ];
    assert_eq!(rt; last_of_eight(rt.alloc())?.as_slice(), want.as_slice());
    Ok(())
}
