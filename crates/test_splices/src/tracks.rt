// Tracks and the table of reels and media by worked examples.
ghost use Rattle.std.specs.Prelude.{◌≡◌, ◌<◌, [], ◌∷◌, IfOk};
ghost use Rattle.composables.specs.Items.{cells_of};
ghost use Rattle.composables.specs.Views.{clip_view, gap_view};

use composables::{
    ItemView, Kind, Layer, Listed, Media, Memory, Nest, Place, Reels, Table, Track, holds,
    limits_are_these,
};
use frame_meaning::{Link, Mark, Side, What};
use std::alloc::Global;
use std::marker::Brand;
use std::process::Abort;
use std::sync::ledger::{Blank, Ledger};
use std::test::Fail;
use step_count::Steps;

const REEL: What = What::Media(0);

// Two items that meet, five frames in all.
fn two_items(alloc: Global) -> Result<Track, Memory>
    ensures { IfOk result (λ t. t ≡ record {
      number = 3;
      cells = cells_of (clip_view 0 (What.Media 0) 50 3 ∷ clip_view 1 (What.Media 0) 7 2 ∷ []);
      next_item = 2;
      next_link = 0;
    }) }
{
    let mut track = Track::empty(alloc, 3);
    track.push(ItemView::clip(0, REEL, 50, 3))?;
    track.push(ItemView::clip(1, REEL, 7, 2))?;
    Ok(track)
}

// An item, a gap and an item.
fn item_gap_item(alloc: Global) -> Result<Track, Memory>
    ensures { IfOk result (λ t. t ≡ record {
      number = 3;
      cells = cells_of (clip_view 0 (What.Media 0) 50 3 ∷ gap_view 2
          ∷ clip_view 1 (What.Media 0) 7 2 ∷ []);
      next_item = 2;
      next_link = 0;
    }) }
{
    let mut track = Track::empty(alloc, 3);
    track.push(ItemView::clip(0, REEL, 50, 3))?;
    track.push(ItemView::gap(2))?;
    track.push(ItemView::clip(1, REEL, 7, 2))?;
    Ok(track)
}

// That track with an item and a gap before its gap, and with a gap and an item after it; and where items of the former
// stand.
fn with_more<L: Ledger>(
    alloc: Global,
    blank: Blank,
) -> Result<(Track, Track, [Option<Place>; 3]), Memory>
    requires { (blank.name ≡ L.name) × (blank.parts ≡ L.parts) × (0 < blank.parts) }
{
    let mut steps = Steps::<L>::new(blank);
    let mut before = item_gap_item(alloc)?;
    let more = Vec::from_slice(alloc, &[ItemView::clip(5, REEL, 20, 1), ItemView::gap(4)])?;
    before.replace(1, 1, more, &mut steps)?;
    let mut behind = item_gap_item(alloc)?;
    let more = Vec::from_slice(alloc, &[ItemView::gap(4), ItemView::clip(5, REEL, 20, 1)])?;
    behind.replace(2, 2, more, &mut steps)?;
    let places = [
        before.item_by_id(1, &mut steps),
        before.item_by_id(5, &mut steps),
        before.item_by_id(2, &mut steps),
    ];
    Ok((before, behind, places))
}

#[test]
fn gaps_that_meet_become_one(rt: HostRuntime) -> Result<(), Fail> {
    let alloc = rt.alloc();
    let (before, behind, places) = with_more::<Brand>(alloc, Blank::new(1))?;
    let all = [
        ItemView::clip(0, REEL, 50, 3),
        ItemView::clip(5, REEL, 20, 1),
        ItemView::gap(6),
        ItemView::clip(1, REEL, 7, 2),
    ];
    assert_eq!(rt; before.items(alloc)?.as_slice(), all.as_slice());
    assert_eq!(rt;
        (before.length(), before.count(), before.next_item()),
        (12, 4, 6)
    );
    let all = [
        ItemView::clip(0, REEL, 50, 3),
        ItemView::gap(6),
        ItemView::clip(5, REEL, 20, 1),
        ItemView::clip(1, REEL, 7, 2),
    ];
    assert_eq!(rt; behind.items(alloc)?.as_slice(), all.as_slice());
    assert_eq!(rt;
        (behind.length(), behind.count(), behind.next_item()),
        (12, 4, 6)
    );
    let want = [
        Some(Place {
            index: 3,
            from: 10,
            to: 12,
        }),
        Some(Place {
            index: 1,
            from: 3,
            to: 4,
        }),
        None,
    ];
    assert_eq!(rt; places.as_slice(), want.as_slice());
    Ok(())
}

#[test]
fn an_item_is_changed_in_place(rt: HostRuntime) -> Result<(), Fail> {
    let alloc = rt.alloc();
    let mut track = two_items(alloc)?;
    let mark = Some(Mark { a: 1, b: 2 });
    track.set_mark(alloc, 1, mark)?;
    assert_eq!(rt;
        track.item(1),
        Some(ItemView {
            mark,
            ..ItemView::clip(1, REEL, 7, 2)
        })
    );
    let mut track = two_items(alloc)?;
    track.set_source(alloc, 0, 60)?;
    assert_eq!(rt; track.item(0), Some(ItemView::clip(0, REEL, 60, 3)));
    let mut track = two_items(alloc)?;
    let link = Some(Link {
        home: 3,
        number: 0,
        tracks: 8,
    });
    track.set_link(alloc, 0, link)?;
    assert_eq!(rt;
        track.item(0),
        Some(ItemView {
            link,
            ..ItemView::clip(0, REEL, 50, 3)
        })
    );
    track.set_next_link(1);
    assert_eq!(rt; track.next_link(), 1);
    Ok(())
}

#[test]
fn reels_stand_in_order_of_first_occurrence(rt: HostRuntime) -> Result<(), Fail> {
    let mut reels = Reels::new(rt.alloc());
    assert_eq!(rt; reels.add("A001")?, 0);
    assert_eq!(rt; reels.add("")?, 1);
    assert_eq!(rt; reels.add("a001")?, 2);
    assert_eq!(rt; reels.add("A001")?, 0);
    assert_eq!(rt; reels.add("")?, 1);
    assert_eq!(rt; reels.add("B002")?, 3);
    assert_eq!(rt; reels.count(), 4);
    assert_eq!(rt; reels.name(0), Some("A001"));
    assert_eq!(rt; reels.name(1), Some(""));
    assert_eq!(rt; reels.name(2), Some("a001"));
    assert_eq!(rt; reels.name(3), Some("B002"));
    assert_eq!(rt; reels.name(4), None);
    let long = "a reel whose name is far longer than any that a camera writes by itself";
    assert_eq!(rt; reels.add(long)?, 4);
    assert_eq!(rt; reels.name(4), Some(long));
    Ok(())
}

#[test]
fn a_thing_has_its_range_in_a_copy_of_its_table(rt: HostRuntime) -> Result<(), Fail> {
    let alloc = rt.alloc();
    let mut media = Listed::new(alloc);
    media.push(Media {
        reel: 0,
        from: 50,
        to: 60,
    })?;
    let mut layers = Listed::new(alloc);
    layers.push(Layer {
        track: two_items(alloc)?,
        from: 1,
        to: 5,
    })?;
    let mut nests = Listed::new(alloc);
    nests.push(Nest { layers, length: 7 })?;
    let mut reels = Reels::new(alloc);
    reels.add("A001")?;
    let first = Table {
        kinds: Listed::from_vec(Vec::from_slice(alloc, &[Kind::Audio])?),
        reels,
        media,
        nests,
    };
    let table = first.copy(alloc)?;
    assert_eq!(rt; table.kinds.as_slice(), [Kind::Audio].as_slice());
    assert_eq!(rt; table.reels.name(0), Some("A001"));
    assert_eq!(rt;
        table.nests.as_slice()[0].layers.as_slice()[0]
            .track
            .length(),
        5
    );
    assert_eq!(rt; table.bounds(What::Media(0)), Some((50, 60)));
    assert_eq!(rt; table.bounds(What::Media(1)), None);
    assert_eq!(rt; table.bounds(What::Nest(0)), Some((0, 7)));
    assert_eq!(rt; table.bounds(What::Nest(1)), None);
    for (source, before, after, want) in [(51, 1, 2, true), (51, 2, 2, false), (51, 1, 3, false)] {
        let side = Side::Pic { what: REEL, source };
        assert_eq!(rt;
            table.lies_in(side, 7, before, after),
            want,
            "{source} {before} {after}"
        );
    }
    assert!(rt; table.lies_in(Side::Dark, 7, 1, 1));
    Ok(())
}

#[test]
fn an_item_holds_its_dissolves(rt: HostRuntime) {
    let mark = |a, b| Some(Mark { a, b });
    let item = ItemView::clip(1, REEL, 4, 5);
    let nest = ItemView::clip(1, What::Nest(0), 4, 5);
    let long = ItemView::clip(1, REEL, 4_294_967_290, 5);
    for (view, head, tail, want) in [
        (item, None, None, true),
        (item, mark(4, 3), mark(2, 9), true),
        (item, mark(5, 3), None, false),
        (item, mark(4, 3), mark(3, 9), false),
        (item, mark(0, 0), None, false),
        (ItemView::clip(1, REEL, 4, 0), None, None, false),
        (nest, None, None, true),
        (nest, mark(1, 0), None, false),
        (nest, None, mark(1, 0), false),
        (long, None, mark(0, 1), true),
        (long, None, mark(0, 2), false),
        (ItemView::gap(5), mark(9, 2), mark(3, 9), true),
    ] {
        let view = ItemView { mark: head, ..view };
        assert_eq!(rt; holds(&view, tail), want, "{view:?} {tail:?}");
    }
}

#[test]
fn parts_of_an_item(rt: HostRuntime) {
    let item = ItemView {
        mark: Some(Mark { a: 1, b: 1 }),
        ..ItemView::clip(1, REEL, 4, 5)
    };
    assert_eq!(rt; item.later(2), ItemView::clip(1, REEL, 6, 3));
    assert_eq!(rt; item.first_frames(2), ItemView { len: 2, ..item });
}

#[test]
fn the_limits_are_told() {
    limits_are_these();
}
