// Fades that hide a picture: on tracks, within nests, and where they hide none.
use crate::tables::{add_nest, add_track, are_short, are_sound, nest, table_of};
use composables::{ItemView, Kind, Listed, Memory, Table};
use flatten::{HidingFade, find_hiding_fades};
use std::alloc::Global;
use std::test::Fail;
use test_tracks::{clip, dissolve, gap};

// The frames [from, to) of the record.
fn over(from: u32, to: u32) -> HidingFade {
    HidingFade { from, to }
}

// The fades that hide a picture in three tracks, each over those before it; `None` where one of them can't be laid.
fn fades_in(
    alloc: Global,
    table: &Table,
    lower: &[ItemView],
    middle: &[ItemView],
    upper: &[ItemView],
) -> Result<Option<Listed<HidingFade>>, Memory> {
    let mut tracks = Vec::new(alloc);
    add_track(&mut tracks, alloc, table, lower)?;
    add_track(&mut tracks, alloc, table, middle)?;
    add_track(&mut tracks, alloc, table, upper)?;
    if tracks.len() < 3 || !are_sound(table.nests.as_slice()) || !are_short(&tracks) {
        return Ok(None);
    }
    Ok(Some(find_hiding_fades(alloc, table, &tracks)?))
}

#[test]
fn a_fade_over_a_picture_hides_it(rt: HostRuntime) -> Result<(), Fail> {
    let alloc = rt.alloc();
    let table = table_of(alloc, &[Kind::Video; 3])?;
    let picture = [clip(0, 0, 10, 9)];
    let fade_in = [gap(3), dissolve(2, 1, clip(0, 2, 50, 4))];
    for (middle, upper, want) in [
        (fade_in.as_slice(), [].as_slice(), [over(1, 4)].as_slice()),
        (
            &[clip(0, 2, 50, 4), dissolve(1, 2, gap(4))],
            &[],
            &[over(3, 6)],
        ),
        // a track between them
        (&[], &fade_in, &[over(1, 4)]),
        // a picture over a part of the fade
        (
            &fade_in,
            &[gap(2), clip(0, 4, 70, 1)],
            &[over(1, 2), over(3, 4)],
        ),
        // a longer fade over it, which hides the fade too
        (
            &fade_in,
            &[gap(2), dissolve(2, 3, clip(0, 4, 70, 6))],
            &[over(0, 5)],
        ),
        // a picture, and a dissolve of two, hide what is below them in every system
        (&[clip(0, 2, 50, 9)], &[], &[]),
        (
            &[clip(0, 2, 50, 4), dissolve(2, 2, clip(1, 4, 70, 5))],
            &[],
            &[],
        ),
    ] {
        let found = fades_in(alloc, &table, &picture, middle, upper)?.ok_or("tracks")?;
        assert_eq!(rt; found.as_slice(), want, "{want:?}");
    }
    Ok(())
}

#[test]
fn a_fade_over_nothing_hides_nothing(rt: HostRuntime) -> Result<(), Fail> {
    let alloc = rt.alloc();
    let picture = [clip(0, 0, 10, 9)];
    let fade_in = [gap(3), dissolve(2, 1, clip(0, 2, 50, 4))];
    for (kinds, lower, upper, want) in [
        (
            [Kind::Video, Kind::Video],
            picture.as_slice(),
            fade_in.as_slice(),
            [over(1, 4)].as_slice(),
        ),
        // it lies below, or over a gap, or only before and after what is there
        ([Kind::Video, Kind::Video], &fade_in, &[], &[]),
        ([Kind::Video, Kind::Video], &[gap(9)], &fade_in, &[]),
        (
            [Kind::Video, Kind::Video],
            &[clip(0, 0, 10, 1), gap(3), clip(1, 0, 20, 3)],
            &fade_in,
            &[],
        ),
        // sound
        ([Kind::Audio, Kind::Video], &picture, &fade_in, &[]),
        ([Kind::Video, Kind::Audio], &picture, &fade_in, &[]),
        ([Kind::Audio, Kind::Audio], &picture, &fade_in, &[]),
    ] {
        let [below, above] = kinds;
        let table = table_of(alloc, &[below, above, Kind::Audio])?;
        let found = fades_in(alloc, &table, lower, upper, &picture)?.ok_or("tracks")?;
        assert_eq!(rt; found.as_slice(), want, "{kinds:?}, {lower:?}");
    }
    Ok(())
}

// Four nests: a title that fades in over the frames [2, 5) of a picture; the same from the title's second frame on; the title
// alone; and the first one from its frame 1 on, within another.
fn add_titles(table: &mut Table, alloc: Global) -> Result<(), Memory> {
    let picture = [clip(0, 0, 10, 8)];
    let title = [gap(4), dissolve(2, 1, clip(0, 2, 50, 4))];
    add_nest(table, alloc, 8, &[(&picture, 0, 8), (&title, 0, 8)])?;
    add_nest(table, alloc, 8, &[(&picture, 0, 8), (&title, 1, 8)])?;
    add_nest(table, alloc, 8, &[(&title, 0, 8)])?;
    add_nest(table, alloc, 6, &[(&[nest(0, 0, 1, 6)], 0, 6)])
}

#[test]
fn a_fade_within_a_nest_hides_a_picture_there(rt: HostRuntime) -> Result<(), Fail> {
    let alloc = rt.alloc();
    let mut table = table_of(alloc, &[Kind::Video; 3])?;
    add_titles(&mut table, alloc)?;
    for (lower, upper, want) in [
        (
            [nest(0, 0, 0, 8)].as_slice(),
            [].as_slice(),
            [over(2, 5)].as_slice(),
        ),
        ([nest(0, 1, 0, 8)].as_slice(), &[], &[over(1, 4)]),
        // after other frames, and from a frame of the nest on
        (
            &[clip(0, 4, 70, 10), nest(1, 0, 1, 7)],
            &[],
            &[over(11, 14)],
        ),
        // from within the fade to within it
        (&[nest(0, 0, 3, 1)], &[], &[over(0, 1)]),
        // an item that was cut in two within the fade
        (&[nest(0, 0, 0, 3), nest(1, 0, 3, 5)], &[], &[over(2, 5)]),
        // one of two nests with it, below a picture for a frame
        (
            &[nest(0, 0, 0, 8), nest(1, 0, 0, 8)],
            &[gap(3), clip(0, 4, 70, 1)],
            &[over(2, 3), over(4, 5), over(10, 13)],
        ),
        // over nothing in its nest, and then over nothing on the tracks, and over a picture there
        (&[nest(0, 2, 0, 8)], &[], &[]),
        (&[clip(0, 4, 70, 4)], &[nest(0, 2, 0, 8)], &[over(2, 4)]),
        // two deep
        (&[nest(0, 3, 0, 6)], &[], &[over(1, 4)]),
        (
            &[clip(0, 4, 70, 1)],
            &[gap(1), nest(0, 3, 2, 4)],
            &[over(1, 3)],
        ),
    ] {
        let found = fades_in(alloc, &table, lower, upper, &[])?.ok_or("tracks")?;
        assert_eq!(rt; found.as_slice(), want, "{lower:?}, {upper:?}");
    }
    Ok(())
}

#[test]
fn fades_are_found_in_order_to_the_frame(rt: HostRuntime) -> Result<(), Fail> {
    let alloc = rt.alloc();
    let table = table_of(alloc, &[Kind::Video; 3])?;
    let picture = [clip(0, 0, 10, 12)];
    for (lower, middle, upper, want) in [
        // from the first frame on; out and in again, which are two though they meet
        (
            picture.as_slice(),
            [
                gap(1),
                dissolve(1, 1, clip(0, 2, 50, 4)),
                dissolve(1, 2, gap(3)),
                dissolve(1, 2, clip(1, 4, 70, 4)),
            ]
            .as_slice(),
            [].as_slice(),
            [over(0, 2), over(4, 7), over(7, 10)].as_slice(),
        ),
        // to the last frame
        (
            &[clip(0, 0, 10, 5)],
            &[clip(0, 2, 50, 3), dissolve(1, 2, gap(2))],
            &[],
            &[over(2, 5)],
        ),
        // as far as there is something below
        (
            &[gap(2), clip(0, 0, 10, 2), gap(2), clip(1, 0, 30, 4)],
            &[gap(4), dissolve(3, 4, clip(0, 2, 50, 6))],
            &[],
            &[over(2, 4), over(6, 8)],
        ),
        // over a cut, and over a dissolve
        (
            &[
                clip(0, 0, 10, 2),
                clip(1, 1, 40, 2),
                dissolve(1, 1, clip(2, 4, 70, 5)),
            ],
            &[gap(3), dissolve(2, 4, clip(0, 2, 50, 6))],
            &[],
            &[over(1, 7)],
        ),
        // the earlier one on the higher track
        (
            &picture,
            &[gap(8), dissolve(1, 1, clip(0, 2, 50, 3))],
            &[gap(2), dissolve(1, 1, clip(0, 4, 70, 2))],
            &[over(1, 3), over(7, 9)],
        ),
    ] {
        let found = fades_in(alloc, &table, lower, middle, upper)?.ok_or("tracks")?;
        assert_eq!(rt; found.as_slice(), want, "{want:?}");
    }
    Ok(())
}
