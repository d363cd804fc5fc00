// Worked examples of each edit of one track.
ghost use Rattle.std.specs.Prelude.{◌≡◌, ◌<◌, [], ◌∷◌, All};
ghost use Rattle.composables.specs.Good.{IsGood};
ghost use Rattle.composables.specs.OwnTracks.{numbers_of};

use composables::{
    Done, EditFault, Fill, FillLength, ItemView, MAX_FRAMES, Memory, Overwrite, Refusal, Remove,
    Slice, Table, Track,
};
use edit_insert::{fill, overwrite, remove, slice};
use frame_meaning::What;
use std::alloc::Global;
use std::marker::Brand;
use std::process::Abort;
use std::sync::ledger::{Blank, Ledger};
use std::test::Fail;
use step_count::Steps;
use test_tracks::{all_roomy, clip, small_table, told_all};

// An edit of one track.
#[derive(Clone, Copy, Debug, PartialEq, Eq)]
enum OnOne {
    Over(Overwrite),
    Out(Remove),
    Cut(Slice),
    Fill(Fill),
}

// An overwrite of a track with media 0 from a source frame on.
fn over_on(track: u32, at: u32, from: u32, len: u32) -> OnOne {
    OnOne::Over(Overwrite {
        track,
        at,
        what: What::Media(0),
        from,
        len,
        keep: false,
    })
}

// Such an overwrite of track 0.
fn over(at: u32, from: u32, len: u32) -> OnOne {
    over_on(0, at, from, len)
}

// A remove of an item of track 0.
fn out(item: u32) -> OnOne {
    OnOne::Out(Remove {
        track: 0,
        item,
        keep: false,
    })
}

// A slice of track 0.
fn cut(at: u32) -> OnOne {
    OnOne::Cut(Slice {
        track: 0,
        at,
        keep: false,
    })
}

// A fill of a gap of track 0 with a thing from a source frame on.
fn fill_with(at: u32, what: What, from: u32, length: FillLength) -> OnOne {
    OnOne::Fill(Fill {
        track: 0,
        at,
        what,
        from,
        length,
        keep: false,
    })
}

// As many source frames of media 0 as these, or the whole gap.
fn part(at: u32, from: u32, len: u32) -> OnOne {
    fill_with(at, What::Media(0), from, FillLength::Source(len))
}

// A fill of a whole gap with media 0.
fn whole(at: u32, from: u32) -> OnOne {
    fill_with(at, What::Media(0), from, FillLength::Sequence)
}

// Does an edit of the one track that is named, whose number the call must have.
fn edit_one<L: Ledger>(
    rt: &impl Abort,
    alloc: Global,
    table: &Table,
    named: &mut Vec<Track>,
    edit: &OnOne,
    number: u32,
    steps: &mut Steps<L>,
) -> Result<Done, EditFault>
    requires named { numbers_of named.old.items ≡ number ∷ [] }
    requires good { All (λ t. IsGood table.now t) named.old.items }
    ensures named { numbers_of named.new.items ≡ number ∷ [] }
    ensures good { All (λ t. IsGood table.now t) named.new.items }
{
    assert!(rt; all_roomy(named));
    match edit {
        OnOne::Over(call) => {
            assert!(rt; call.track == number);
            overwrite(alloc, table, named, call, steps)
        }
        OnOne::Out(call) => {
            assert!(rt; call.track == number);
            remove(alloc, table, named, call, steps)
        }
        OnOne::Cut(call) => {
            assert!(rt; call.track == number);
            slice(alloc, table, named, call, steps)
        }
        OnOne::Fill(call) => {
            assert!(rt; call.track == number);
            fill(alloc, table, named, call, steps)
        }
    }
}

// Edits of one track, one after another.
fn edit_all<L: Ledger>(
    rt: &impl Abort,
    alloc: Global,
    table: &Table,
    named: &mut Vec<Track>,
    edits: &[OnOne],
    number: u32,
    steps: &mut Steps<L>,
) -> Result<Done, EditFault>
    requires named { numbers_of named.old.items ≡ number ∷ [] }
    requires good { All (λ t. IsGood table.now t) named.old.items }
    ensures named { numbers_of named.new.items ≡ number ∷ [] }
    ensures good { All (λ t. IsGood table.now t) named.new.items }
{
    let mut last = Ok(Done::Plain);
    for edit in edits {
        last = edit_one(rt, alloc, table, named, edit, number, steps);
    }
    last
}

// What edits of a track leave of it, and what the last was answered.
#[derive(Drop)]
struct Played {
    items: Vec<ItemView>,
    next: u32,
    last: Result<Done, EditFault>,
}

// Does edits of a track one after another.
fn play<L: Ledger>(
    rt: &impl Abort,
    alloc: Global,
    blank: Blank,
    table: &Table,
    track: Track,
    number: u32,
    edits: &[OnOne],
) -> Result<Played, Memory>
    requires blank { (blank.name ≡ L.name) × (blank.parts ≡ L.parts) × (0 < blank.parts) }
    requires number { track.number ≡ number }
    requires good { IsGood table.now track }
{
    let mut steps = Steps::<L>::new(blank);
    let mut named = Vec::new(alloc);
    named.push(track)?;
    let last = edit_all(rt, alloc, table, &mut named, edits, number, &mut steps);
    Ok(Played {
        items: named[0].items(alloc)?,
        next: named[0].next_item(),
        last,
    })
}

// Does edits of an empty track with this number, beside the small table.
fn play_from_empty(
    rt: &impl Abort,
    alloc: Global,
    number: u32,
    edits: &[OnOne],
) -> Result<Played, Memory> {
    let table = small_table(alloc)?;
    let track = Track::empty(alloc, number);
    play::<Brand>(rt, alloc, Blank::new(1), &table, track, number, edits)
}

// An edit of a row: a new item over a place, of source frames from one on, so many; an item away; a cut at a place; a gap
// filled from a place in it, with source frames from one on, so many or all.
#[derive(Clone, Copy, Debug, PartialEq, Eq)]
enum Op {
    Over(u32, u32, u32),
    Out(u32),
    Cut(u32),
    Part(u32, u32, u32),
    Whole(u32, u32),
}

// The call that an edit of a row stands for, on track 0.
fn edit_of(op: Op) -> OnOne {
    match op {
        Op::Over(at, from, len) => over(at, from, len),
        Op::Out(item) => out(item),
        Op::Cut(at) => cut(at),
        Op::Part(at, from, len) => part(at, from, len),
        Op::Whole(at, from) => whole(at, from),
    }
}

// Whether edits of a track without frames leave these items and gaps, and the last is answered so.
fn leave(
    rt: &impl Abort,
    alloc: Global,
    ops: &[Op],
    items: &str,
    last: Done,
) -> Result<bool, Memory> {
    let mut edits = Vec::new(alloc);
    for op in ops {
        edits.push(edit_of(*op))?;
    }
    let played = play_from_empty(rt, alloc, 0, &edits)?;
    let told = told_all(alloc, &played.items)?;
    Ok(played.last == Ok(last) && told.as_str() == items)
}

// Whether an edit of a track of one item of four frames is refused so, and leaves it as it is.
fn is_refused(
    rt: &impl Abort,
    alloc: Global,
    number: u32,
    edit: OnOne,
    refusal: Refusal,
) -> Result<bool, Memory> {
    let played = play_from_empty(rt, alloc, number, &[over_on(number, 0, 0, 4), edit])?;
    let stays = played.next == 1 && played.items.as_slice() == [clip(0, 0, 0, 4)].as_slice();
    Ok(stays && played.last == Err(EditFault::Refused(refusal)))
}

#[test]
fn an_overwrite_cuts_what_stands_at_its_ends(rt: HostRuntime) -> Result<(), Fail> {
    use Op::{Cut, Over};
    for (ops, items, last) in [
        // after the end, right at it, past it
        (
            [Over(10, 100, 5), Cut(0), Cut(0)].as_slice(),
            " +10 0@100+5",
            Done::Plain,
        ),
        (
            [Over(0, 100, 5), Over(4, 200, 3)].as_slice(),
            " 0@100+4 1@200+3",
            Done::Item(1),
        ),
        (
            [Over(0, 100, 5), Over(7, 200, 3)].as_slice(),
            " 0@100+5 +2 1@200+3",
            Done::Item(1),
        ),
        // inside an item, inside a gap, over several
        (
            [Over(10, 100, 5), Over(12, 500, 1)].as_slice(),
            " +10 0@100+2 1@500+1 2@103+2",
            Done::Item(1),
        ),
        (
            [Over(10, 100, 5), Over(3, 500, 4)].as_slice(),
            " +3 1@500+4 +3 0@100+5",
            Done::Item(1),
        ),
        (
            [
                Over(0, 0, 3),
                Over(3, 10, 3),
                Over(6, 20, 3),
                Over(2, 500, 5),
            ]
            .as_slice(),
            " 0@0+2 3@500+5 2@21+2",
            Done::Item(3),
        ),
    ] {
        assert!(rt; leave(&rt, rt.alloc(), ops, items, last)?, "{ops:?}");
    }
    Ok(())
}

#[test]
fn what_is_removed_is_dark_and_a_slice_cuts(rt: HostRuntime) -> Result<(), Fail> {
    use Op::{Cut, Out, Over};
    for (ops, items) in [
        // remove: between items, beside a gap, at the end
        (
            [Over(0, 0, 3), Over(3, 10, 3), Over(6, 20, 3), Out(1)].as_slice(),
            " 0@0+3 +3 2@20+3",
        ),
        (
            [Over(2, 0, 3), Over(5, 10, 3), Out(0)].as_slice(),
            " +5 1@10+3",
        ),
        (
            [Over(2, 0, 3), Over(5, 10, 3), Out(1)].as_slice(),
            " +2 0@0+3 +3",
        ),
        // slice: in an item, at its ends, in a gap
        (
            [Over(2, 0, 3), Cut(2), Cut(1), Cut(0), Cut(4)].as_slice(),
            " +2 0@0+2 1@2+1",
        ),
    ] {
        assert!(rt; leave(&rt, rt.alloc(), ops, items, Done::Plain)?, "{ops:?}");
    }
    Ok(())
}

#[test]
fn a_fill_takes_of_its_gap_what_it_has_frames_for(rt: HostRuntime) -> Result<(), Fail> {
    use Op::{Out, Over, Part, Whole};
    for (ops, items, last) in [
        // fewer frames than the gap has, more, and all; from any place of it
        (
            [Over(2, 0, 3), Over(9, 10, 1), Part(6, 500, 3)].as_slice(),
            " +2 0@0+3 2@500+3 +1 1@10+1",
            2,
        ),
        (
            [Over(2, 0, 3), Over(9, 10, 1), Part(8, 500, 9)].as_slice(),
            " +2 0@0+3 2@500+4 1@10+1",
            2,
        ),
        (
            [Over(2, 0, 3), Over(9, 10, 1), Whole(5, 86_396)].as_slice(),
            " +2 0@0+3 2@86396+4 1@10+1",
            2,
        ),
        (
            [Over(0, 0, 3), Out(0), Whole(2, 500)].as_slice(),
            " 1@500+3",
            1,
        ),
    ] {
        assert!(rt;
            leave(&rt, rt.alloc(), ops, items, Done::Item(last))?,
            "{ops:?}"
        );
    }
    Ok(())
}

#[test]
fn the_first_refusal_of_an_overwrite_is_answered(rt: HostRuntime) -> Result<(), Fail> {
    let call = Overwrite {
        track: 0,
        at: MAX_FRAMES,
        what: What::Media(0),
        from: 0,
        len: 1,
        keep: false,
    };
    for (row, edit, refusal) in [
        (
            0u32,
            OnOne::Over(Overwrite {
                what: What::Media(2),
                len: 0,
                ..call
            }),
            Refusal::NoMedia,
        ),
        (
            1,
            OnOne::Over(Overwrite {
                what: What::Nest(1),
                len: 0,
                ..call
            }),
            Refusal::NoMedia,
        ),
        (
            2,
            OnOne::Over(Overwrite {
                track: 1,
                what: What::Nest(0),
                len: 0,
                ..call
            }),
            Refusal::NoMedia,
        ),
        (
            3,
            OnOne::Over(Overwrite {
                from: 90_000,
                len: 0,
                ..call
            }),
            Refusal::EmptyRange,
        ),
        (
            4,
            OnOne::Over(Overwrite {
                from: 86_399,
                len: 2,
                ..call
            }),
            Refusal::MediaEnds,
        ),
        (
            5,
            OnOne::Over(Overwrite {
                what: What::Media(1),
                from: 49,
                ..call
            }),
            Refusal::MediaEnds,
        ),
        (
            6,
            OnOne::Over(Overwrite {
                what: What::Media(1),
                from: 59,
                len: 2,
                ..call
            }),
            Refusal::MediaEnds,
        ),
        (
            7,
            OnOne::Over(Overwrite {
                what: What::Nest(0),
                from: 50,
                ..call
            }),
            Refusal::MediaEnds,
        ),
        (
            8,
            OnOne::Over(Overwrite {
                from: u32::MAX,
                len: u32::MAX,
                ..call
            }),
            Refusal::MediaEnds,
        ),
        (9, over(2_591_999, 0, 2), Refusal::TooLong(0)),
        (10, over(u32::MAX, 0, 1), Refusal::TooLong(0)),
    ] {
        let number = if row == 2 { 1 } else { 0 };
        assert!(rt;
            is_refused(&rt, rt.alloc(), number, edit, refusal)?,
            "row {row}"
        );
    }
    Ok(())
}

#[test]
fn what_is_no_item_is_neither_removed_nor_cut(rt: HostRuntime) -> Result<(), Fail> {
    for (row, edit, refusal) in [
        (0u32, out(1), Refusal::NoItem),
        (1, cut(4), Refusal::NoItem),
        (2, cut(u32::MAX), Refusal::NoItem),
    ] {
        assert!(rt; is_refused(&rt, rt.alloc(), 0, edit, refusal)?, "row {row}");
    }
    Ok(())
}

#[test]
fn a_fill_asks_for_its_source_before_its_gap(rt: HostRuntime) -> Result<(), Fail> {
    for (row, edit, refusal) in [
        // the source is asked for before the gap, and for a whole gap where there is one
        (0u32, part(3, 90_000, 0), Refusal::EmptyRange),
        (1, part(3, 86_399, 2), Refusal::MediaEnds),
        (2, part(3, 86_399, 1), Refusal::NotAGap(3)),
        (3, whole(3, 90_000), Refusal::NotAGap(3)),
        (4, whole(u32::MAX, 0), Refusal::NotAGap(u32::MAX)),
        (
            5,
            fill_with(4, What::Media(2), 0, FillLength::Sequence),
            Refusal::NoMedia,
        ),
        (
            6,
            fill_with(4, What::Nest(1), 0, FillLength::Source(0)),
            Refusal::NoMedia,
        ),
    ] {
        assert!(rt; is_refused(&rt, rt.alloc(), 0, edit, refusal)?, "row {row}");
    }
    Ok(())
}

#[test]
fn an_item_may_end_at_the_last_frame_of_a_track(rt: HostRuntime) -> Result<(), Fail> {
    let ops = [Op::Over(2_591_999, 0, 1)];
    assert!(rt;
        leave(&rt, rt.alloc(), &ops, " +2591999 0@0+1", Done::Item(0))?,
        "{ops:?}"
    );
    Ok(())
}
