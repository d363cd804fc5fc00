// Worked examples of link and unlink, on tracks of one item each.
ghost use Rattle.std.specs.Prelude.{◌≡◌, ◌<◌, All, IfOk, IfSome, true};
ghost use Rattle.composables.specs.Good.{IsGood};
ghost use Rattle.composables.specs.OwnTracks.{numbers_of};
ghost use Rattle.composables.specs.Roomy.{IsRoomy};
ghost use Rattle.composables.specs.TrackSets.{tracks_in};

use composables::{
    Done, EditFault, ItemView, Kind, Link3, Listed, Media, Nest, Numbers, Reels, Refusal, Table,
    Track, Unlink,
};
use frame_meaning::{Link, Memory, What};
use link_groups::{check, link, offset, renumber, unlink};
use std::alloc::Global;
use std::marker::Brand;
use std::sync::ledger::{Blank, Ledger};
use std::test::Fail;
use step_count::Steps;
use test_tracks::{all_roomy, clip, laid_track};

#[test]
fn an_offset_is_the_record_frame_less_the_source_frame(rt: HostRuntime) -> Result<(), Fail> {
    let view = ItemView::clip(0, What::Media(0), 16_777_215, 1);
    assert_eq!(rt; offset(&view, 0), Some(-16_777_215));
    assert_eq!(rt; offset(&view, 16_777_216), Some(1));
    assert_eq!(rt;
        offset(&ItemView::clip(1, What::Media(0), 4, 5), 1),
        Some(-3)
    );
    assert_eq!(rt; offset(&ItemView::gap(5), 7), None);
    Ok(())
}

// Media 0 has the source frames [8, 60).
fn table(alloc: Global) -> Result<Table, Memory> {
    let mut media = Listed::new(alloc);
    media.push(Media {
        reel: 0,
        from: 8,
        to: 60,
    })?;
    let kinds: Listed<Kind> = Listed::new(alloc);
    let nests: Listed<Nest> = Listed::new(alloc);
    Ok(Table {
        kinds,
        reels: Reels::new(alloc),
        media,
        nests,
    })
}

// A track of one item, which shows the thing from its first frame on; none where the thing has no such source frames.
fn track_of(alloc: Global, table: &Table, number: u32, source: u32) -> Result<Option<Track>, Memory>
    ensures good { IfOk result (λ o. IfSome o (λ t. IsGood table.now t)) }
    ensures number { IfOk result (λ o. IfSome o (λ t. t.number ≡ number)) }
    ensures roomy { IfOk result (λ o. IfSome o (λ t. IsRoomy t)) }
{
    laid_track(alloc, table, number, &[clip(0, 0, source, 5)])
}

// What a link answers on two tracks, the links of their first items after it, and what it answers once more; why a shift
// of the first track alone is refused, of what it has from its last frame on; and the link of the second track's item
// after a split of what stands from the first frame on from what stands there.
#[derive(Drop)]
struct Played {
    answer: Result<Done, EditFault>,
    first: Option<Link>,
    second: Option<Link>,
    again: Result<Done, EditFault>,
    alone: Option<Refusal>,
    split: Option<Link>,
}

// Gives new links to all items, as where they are moved away from their own first frames.
fn split_all<L: Ledger>(
    alloc: Global,
    table: &Table,
    named: &mut Vec<Track>,
    steps: &mut Steps<L>,
) -> Result<(), Memory>
    requires named { numbers_of named.old.items ≡ tracks_in 3 }
    requires good { All (λ t. IsGood table.now t) named.old.items }
    requires roomy { All (λ t. IsRoomy t) named.old.items }
{
    let _ = table;
    match check(named, 1, 0, steps) {
        Some(_) => Ok(()),
        None => renumber(alloc, named, 1, 0, steps),
    }
}

// The link of the first item of the track at an index, if there is one.
fn link_at(named: &[Track], index: usize) -> Option<Link> {
    named.get(index)?.item(0)?.link
}

// Links items of two tracks, tries it again, asks whether a shift of the first alone is refused, and splits the link.
fn play<L: Ledger>(
    alloc: Global,
    blank: Blank,
    table: &Table,
    first: Track,
    second: Track,
    call: &Link3,
) -> Result<Option<Played>, Memory>
    requires blank { (blank.name ≡ L.name) × (blank.parts ≡ L.parts) × (0 < blank.parts) }
    requires call { call.now.tracks ≡ 3 }
    requires numbers { (first.number ≡ 0) × (second.number ≡ 1) }
    requires good { IsGood table.now first × IsGood table.now second }
    requires roomy { IsRoomy first × IsRoomy second }
{
    let mut steps = Steps::<L>::new(blank);
    let mut named = Vec::new(alloc);
    named.push(first)?;
    named.push(second)?;
    let answer = link(alloc, table, &mut named, call, &mut steps);
    if !all_roomy(&named) {
        return Ok(None);
    }
    let first = link_at(&named, 0);
    let second = link_at(&named, 1);
    let again = link(alloc, table, &mut named, call, &mut steps);
    let (one, _) = named.split_at(named.len().min(1));
    let alone = check(one, 0, 4, &mut steps);
    if !all_roomy(&named) {
        return Ok(None);
    }
    split_all(alloc, table, &mut named, &mut steps)?;
    let split = link_at(&named, 1);
    Ok(Some(Played {
        answer,
        first,
        second,
        again,
        alone,
        split,
    }))
}

// The items with these numbers linked, on tracks whose items show the thing from these source frames on.
fn tried(alloc: Global, sources: (u32, u32), items: &[u32]) -> Result<Option<Played>, Memory> {
    let table = table(alloc)?;
    let (first, second) = sources;
    let Some(first) = track_of(alloc, &table, 0, first)? else {
        return Ok(None);
    };
    let Some(second) = track_of(alloc, &table, 1, second)? else {
        return Ok(None);
    };
    let call = Link3 {
        tracks: 3,
        items: Numbers::from_vec(Vec::from_slice(alloc, items)?),
    };
    play::<Brand>(alloc, Blank::new(1), &table, first, second, &call)
}

#[test]
fn items_of_one_offset_get_one_link(rt: HostRuntime) -> Result<(), Fail> {
    let made = Link {
        home: 0,
        number: 0,
        tracks: 3,
    };
    let played = tried(rt.alloc(), (10, 10), &[0, 0])?.ok_or("there are such tracks")?;
    assert_eq!(rt; played.answer, Ok(Done::Linked { home: 0, number: 0 }));
    assert_eq!(rt; played.first, Some(made));
    assert_eq!(rt; played.second, Some(made));
    let linked = Refusal::AlreadyLinked { track: 0, item: 0 };
    assert_eq!(rt; played.again, Err(EditFault::Refused(linked)));
    let outside = Refusal::LinkOutside {
        home: 0,
        number: 0,
        track: 1,
    };
    assert_eq!(rt; played.alone, Some(outside));
    assert_eq!(rt; played.split, Some(Link { number: 1, ..made }));
    Ok(())
}

#[test]
fn items_that_cannot_be_linked_are_refused(rt: HostRuntime) -> Result<(), Fail> {
    for (sources, items, why) in [
        (
            (10, 20),
            [0, 0].as_slice(),
            Refusal::OffsetsDiffer(-10, -20),
        ),
        ((10, 10), [0].as_slice(), Refusal::NoItem),
        ((10, 10), [0, 0, 0].as_slice(), Refusal::NoItem),
        ((10, 20), [0, 1].as_slice(), Refusal::NoItem),
    ] {
        let played = tried(rt.alloc(), sources, items)?.ok_or("there are such tracks")?;
        assert_eq!(rt; played.answer, Err(EditFault::Refused(why)), "{items:?}");
        assert_eq!(rt; played.first, None, "{items:?}");
        assert_eq!(rt; played.again, Err(EditFault::Refused(why)), "{items:?}");
    }
    Ok(())
}

// What a link of one item and its unlink answer, and the link after each.
#[derive(Drop)]
struct Undone {
    linked: Option<Link>,
    answer: Result<Done, EditFault>,
    unlinked: Option<Link>,
}

// Links one item, and takes the link from the item with a number.
fn undo<L: Ledger>(
    alloc: Global,
    blank: Blank,
    table: &Table,
    track: Track,
    call: &Link3,
    item: u32,
) -> Result<Undone, Memory>
    requires blank { (blank.name ≡ L.name) × (blank.parts ≡ L.parts) × (0 < blank.parts) }
    requires call { call.now.tracks ≡ 1 }
    requires number { track.number ≡ 0 }
    requires good { IsGood table.now track }
    requires roomy { IsRoomy track }
{
    let mut steps = Steps::<L>::new(blank);
    let mut named = Vec::new(alloc);
    named.push(track)?;
    let _ = link(alloc, table, &mut named, call, &mut steps);
    let linked = link_at(&named, 0);
    let asked = Unlink { track: 0, item };
    let answer = unlink(alloc, table, &mut named, &asked, &mut steps);
    let unlinked = link_at(&named, 0);
    Ok(Undone {
        linked,
        answer,
        unlinked,
    })
}

// The link and unlink of an item on a small track.
fn after_unlink(alloc: Global, item: u32) -> Result<Option<Undone>, Memory> {
    let table = table(alloc)?;
    let Some(track) = track_of(alloc, &table, 0, 10)? else {
        return Ok(None);
    };
    let call = Link3 {
        tracks: 1,
        items: Numbers::from_vec(Vec::from_slice(alloc, &[0])?),
    };
    let all = undo::<Brand>(alloc, Blank::new(1), &table, track, &call, item)?;
    Ok(Some(all))
}

#[test]
fn a_link_is_taken_away(rt: HostRuntime) -> Result<(), Fail> {
    let made = Some(Link {
        home: 0,
        number: 0,
        tracks: 1,
    });
    let all = after_unlink(rt.alloc(), 0)?.ok_or("there is such a track")?;
    assert_eq!(rt; all.linked, made);
    assert_eq!(rt; all.answer, Ok(Done::Plain));
    assert_eq!(rt; all.unlinked, None);
    let none = after_unlink(rt.alloc(), 7)?.ok_or("there is such a track")?;
    assert_eq!(rt; none.answer, Err(EditFault::Refused(Refusal::NoItem)));
    assert_eq!(rt; none.unlinked, made);
    Ok(())
}
