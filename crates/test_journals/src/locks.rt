// Counters are held, looked at and put back.
ghost use Rattle.std.specs.Prelude.{◌≡◌, Some, length};
ghost use Rattle.room_core.specs.Totals.{CanOpen};

use edit_journal::{Beginning, Blank, Journal, Naming};
use room_core::Memory;
use std::alloc::Global;
use std::marker::Brand;
use std::sync::Wait;
use std::test::Fail;
use test_counters::Counters;
use track_locks::Tracks;

// Holds the parts of a set, looks at the journal with their seats, puts them back, and gives copies of the parts.
fn looked_at<J: Naming<Counters, u32>, R: Wait>(
    rt: &R,
    alloc: Global,
    journal: &Journal<Counters, J>,
    tracks: &Tracks<Counters, J>,
    object: &Counters,
    set: u32,
) -> Result<Vec<u32>, Memory> {
    let mut held = tracks.hold(rt, alloc, set)?;
    let parts = held.copy(alloc, object);
    let mut turn = journal.lock(rt);
    held.take_seats(&mut turn);
    turn.look();
    held.give_seats(&mut turn);
    turn.release();
    held.release(rt);
    parts
}

// The parts of three sets, one after another.
fn held_in_turn<J: Naming<Counters, u32>, R: Wait>(
    rt: &R,
    alloc: Global,
    object: &Counters,
    parts: Vec<u32>,
    blank: Blank<Counters>,
) -> Result<[Vec<u32>; 3], Memory>
    requires table { J.table ≡ blank.table }
    requires opening { J.opening ≡ blank.opening }
    requires stations { J.stations ≡ blank.stations }
    requires object { blank.opening ≡ Some (object.now, parts.items) }
    requires opens { CanOpen object.now.count object.now.most parts.items }
    requires count { blank.parts ≡ length parts.items }
{
    let (journal, seats, _) = Journal::<Counters, J>::open(alloc, blank)?;
    let tracks = Tracks::new(alloc, object, parts, seats)?;
    let all = looked_at(rt, alloc, &journal, &tracks, object, 0b111)?;
    let some = looked_at(rt, alloc, &journal, &tracks, object, 0b101)?;
    let none = looked_at(rt, alloc, &journal, &tracks, object, 0b1000)?;
    Ok([all, some, none])
}

// The parts of three sets of three counters, at 5, 7 and 9.
fn held_parts<R: Wait>(rt: &R, alloc: Global) -> Result<[Vec<u32>; 3], Memory> {
    let object = Counters { count: 3, most: 10 };
    let parts = Vec::from_slice(alloc, &[5, 7, 9])?;
    let beginning = Beginning {
        object,
        parts,
        part_count: 3,
        station_count: 1,
    };
    let blank = Blank::new(alloc, &beginning);
    let Beginning {
        object,
        parts,
        part_count: _,
        station_count: _,
    } = beginning;
    held_in_turn::<Brand, R>(rt, alloc, &object, parts, blank?)
}

#[test]
fn a_part_that_was_put_back_is_found_again(rt: HostRuntime) -> Result<(), Fail> {
    let [all, some, none] = held_parts(&rt, rt.alloc()).ok().ok_or("parts")?;
    assert_eq!(rt; all.as_slice(), [5, 7, 9].as_slice());
    assert_eq!(rt; some.as_slice(), [5, 9].as_slice());
    assert!(rt; none.is_empty());
    Ok(())
}
