// The delta used, its way, and the frames by which an item goes on and reaches back.
use composables::{ItemView, Kind, Listed, Media, Memory, Nest, Reels, Table};
use edit_delta::{
    Way, frames_after, frames_before, going_on, nearest_within, reaching_back, way_of,
};
use frame_meaning::What;
use std::alloc::Global;
use std::test::Fail;

#[test]
fn the_nearest_delta_is_used(rt: HostRuntime) -> Result<(), Fail> {
    let rows = [
        (0, 3, 4, 0),
        (5, 3, 4, 4),
        (4, 3, 4, 4),
        (-4, 3, 4, -3),
        (-3, 3, 4, -3),
        (i32::MAX, 0, u32::MAX, i32::MAX),
        (i32::MIN, u32::MAX, 0, i32::MIN),
        (i32::MIN, 0x8000_0000, 0, i32::MIN),
        (i32::MIN, 0x7fff_ffff, 0, -0x7fff_ffff),
        (-1, 0, 9, 0),
    ];
    for (by, earlier, later, want) in rows {
        assert_eq!(rt;
            nearest_within(by, earlier, later),
            want,
            "{by} within {earlier} and {later}"
        );
    }
    Ok(())
}

#[test]
fn a_delta_has_its_way(rt: HostRuntime) -> Result<(), Fail> {
    let rows = [
        (0, Way::Still),
        (1, Way::Later(1)),
        (-1, Way::Earlier(1)),
        (i32::MAX, Way::Later(0x7fff_ffff)),
        (i32::MIN, Way::Earlier(0x8000_0000)),
    ];
    for (by, want) in rows {
        assert_eq!(rt; way_of(by), want, "{by}");
    }
    Ok(())
}

// Media 0 has the source frames [8, 60).
fn table(alloc: Global) -> Result<Table, Memory> {
    let mut media = Listed::new(alloc);
    media.push(Media {
        reel: 0,
        from: 8,
        to: 60,
    })?;
    let kinds: Listed<Kind> = Listed::new(alloc);
    let nests: Listed<Nest> = Listed::new(alloc);
    Ok(Table {
        kinds,
        reels: Reels::new(alloc),
        media,
        nests,
    })
}

// How far an item reaches back and goes on, where its source lies in its range.
fn reaches(table: &Table, source: u32, len: u32) -> Option<(u32, u32)> {
    let view = ItemView::clip(0, What::Media(0), source, len);
    if len == 0 || source > 100 || len > 100 || !table.lies_in(view.first, view.len, 0, 0) {
        return None;
    }
    Some((frames_before(table, &view), frames_after(table, &view)))
}

#[test]
fn an_item_reaches_the_ends_of_its_thing(rt: HostRuntime) -> Result<(), Fail> {
    let table = table(rt.alloc())?;
    let rows = [
        (8, 52, Some((0, 0))),
        (10, 4, Some((2, 46))),
        (59, 1, Some((51, 0))),
        (7, 4, None),
        (57, 4, None),
    ];
    for (source, len, want) in rows {
        assert_eq!(rt; reaches(&table, source, len), want, "{len} from {source}");
    }
    let view = ItemView::clip(3, What::Media(0), 10, 4);
    assert_eq!(rt;
        going_on(&view, 2),
        ItemView::clip(3, What::Media(0), 14, 2)
    );
    assert_eq!(rt;
        reaching_back(&view, 2),
        ItemView::clip(3, What::Media(0), 8, 2)
    );
    assert_eq!(rt; going_on(&ItemView::gap(3), 2), ItemView::gap(2));
    Ok(())
}
