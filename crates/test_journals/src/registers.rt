// A journal of registers: entries stand in the order of the turns, and a full journal takes no more.
ghost use Rattle.std.specs.Prelude.{◌≡◌, ◌<◌, ◌≤◌, IfOk, ℕ, List, Some};
ghost use Rattle.edit_journal.specs.Turns.{IsJournal, HasNames, last_of};

use edit_journal::{
    Beginning, Blank, CopyFault, Journal, MOST_ENTRIES, Naming, PartSeat, Pass, Turn,
};
use room_core::{Entry, Memory, PartObject};
use std::alloc::Global;
use std::marker::Brand;
use std::sync::Wait;
use std::test::Fail;
use test_counters::Registers;

// An entry that writes a register.
type Written = Entry<(u32, u32)>;

// Adds an entry and answers its place; `None` where there is no memory for it or the journal is full.
fn added<J: Naming<Registers, u32>>(
    alloc: Global,
    turn: &mut Turn<'_, Registers, J>,
    object: &Registers,
    entry: Written,
) -> Option<u32>
    requires opening { (ps : List ℕ) × (turn.old.journal.opening ≡ Some (object.now, ps)) }
    requires journal { IsJournal ⟦<Registers as PartObject>⟧.meaning
        ⟦<Registers as PartObject>⟧.opens J.stations turn.old.journal.opening
        turn.old.journal.entries }
    requires names { HasNames ⟦<Registers as PartObject>⟧.meaning turn.old.journal entry }
    requires above { last_of entry.station turn.old.journal.entries < entry.number }
    requires there { entry.call.0 < object.now.count }
    ensures names { turn.new.journal.names ≡ turn.old.journal.names }
    ensures tokens { turn.new.tokens ≡ turn.old.tokens }
{
    if turn.reserve(alloc).is_err() {
        return None;
    }
    match turn.append(entry) {
        Ok(place) => Some(place),
        Err(_) => None,
    }
}

// The seat of a register, and the pass of the station that writes into it.
type Tokens<J> = (PartSeat<Registers, J>, Pass<Registers, J>);

// Writes into the register of a seat, in the name of a pass, and answers the entry's place.
fn write<J: Naming<Registers, u32>, R: Wait>(
    rt: &R,
    alloc: Global,
    journal: &Journal<Registers, J>,
    object: &Registers,
    tokens: Tokens<J>,
    value: u32,
) -> (Tokens<J>, Option<u32>)
    requires opening { (ps : List ℕ) × (J.opening ≡ Some (object.now, ps)) }
{
    let (seat, pass) = tokens;
    let (part, station, last) = (seat.part(), pass.station(), pass.last());
    if part >= object.count || last > MOST_ENTRIES {
        return ((seat, pass), None);
    }
    let entry = Entry {
        station,
        number: last + 1,
        call: (part, value),
    };
    let mut turn = journal.lock(rt);
    turn.gather_seat(seat);
    turn.gather_pass(pass);
    turn.look();
    let place = added(alloc, &mut turn, object, entry);
    let seat = turn.give_seat(part);
    let pass = turn.give_pass(station);
    turn.release();
    ((seat, pass), place)
}

// The first n entries.
fn first_of<J: Naming<Registers, u32>, R: Wait>(
    rt: &R,
    alloc: Global,
    journal: &Journal<Registers, J>,
    object: &Registers,
    n: u32,
) -> Result<Vec<Written>, CopyFault> {
    let turn = journal.lock(rt);
    let entries = turn.copy_to(alloc, object, n);
    turn.release();
    entries
}

// The entries from one on, at most so many.
fn some_of<J: Naming<Registers, u32>, R: Wait>(
    rt: &R,
    alloc: Global,
    journal: &Journal<Registers, J>,
    object: &Registers,
    from: u32,
    most: u32,
) -> Result<Vec<Written>, CopyFault> {
    let turn = journal.lock(rt);
    let entries = turn.entries(alloc, object, from, most);
    turn.release();
    entries
}

// The last seat and the last pass of those that are left.
fn last_of_each<J: Naming<Registers, u32>>(
    seats: &mut Vec<PartSeat<Registers, J>>,
    passes: &mut Vec<Pass<Registers, J>>,
) -> Option<Tokens<J>> {
    match (seats.pop(), passes.pop()) {
        (Some(seat), Some(pass)) => Some((seat, pass)),
        _ => None,
    }
}

// What was answered to four writes and five copies, the last number of station 1, and the journal's entries.
#[derive(Drop)]
struct Outcome {
    places: [Option<u32>; 4],
    first_two: Vec<Written>,
    middle: Vec<Written>,
    at_end: Vec<Written>,
    too_many: Option<CopyFault>,
    past_end: Option<CopyFault>,
    last: u32,
    all: Vec<Written>,
}

// What two stations are told that write into two registers: station 1 also into the register of station 0.
fn told<J: Naming<Registers, u32>, R: Wait>(
    rt: &R,
    alloc: Global,
    object: &Registers,
    blank: Blank<Registers>,
) -> Option<Outcome>
    requires table { J.table ≡ blank.table }
    requires opening { J.opening ≡ blank.opening }
    requires stations { J.stations ≡ blank.stations }
    requires object { (ps : List ℕ) × (blank.opening ≡ Some (object.now, ps)) }
{
    let (journal, mut seats, mut passes) = Journal::<Registers, J>::open(alloc, blank).ok()?;
    let one = last_of_each(&mut seats, &mut passes)?;
    let zero = last_of_each(&mut seats, &mut passes)?;
    let (one, first) = write(rt, alloc, &journal, object, one, 5);
    let (zero, second) = write(rt, alloc, &journal, object, zero, 7);
    let (one, third) = write(rt, alloc, &journal, object, one, 6);
    let (seat, zero) = zero;
    let (_, one) = one;
    let (tokens, fourth) = write(rt, alloc, &journal, object, (seat, one), 8);
    let (_, one) = tokens;
    let first_two = first_of(rt, alloc, &journal, object, 2).ok()?;
    let too_many = first_of(rt, alloc, &journal, object, 5).err();
    let middle = some_of(rt, alloc, &journal, object, 1, 2).ok()?;
    let at_end = some_of(rt, alloc, &journal, object, 4, 1).ok()?;
    let past_end = some_of(rt, alloc, &journal, object, 5, 0).err();
    let last = one.last();
    passes.push(zero).ok()?;
    passes.push(one).ok()?;
    Some(Outcome {
        places: [first, second, third, fourth],
        first_two,
        middle,
        at_end,
        too_many,
        past_end,
        last,
        all: journal.close(passes),
    })
}

// The place of the last entry that there may be, and what is answered to one more.
fn filled<J: Naming<Registers, u32>, R: Wait>(
    rt: &R,
    alloc: Global,
    object: &Registers,
    blank: Blank<Registers>,
) -> Option<[Option<u32>; 2]>
    requires table { J.table ≡ blank.table }
    requires opening { J.opening ≡ blank.opening }
    requires stations { J.stations ≡ blank.stations }
    requires object { (ps : List ℕ) × (blank.opening ≡ Some (object.now, ps)) }
{
    let (journal, mut seats, mut passes) = Journal::<Registers, J>::open(alloc, blank).ok()?;
    let mut tokens = last_of_each(&mut seats, &mut passes)?;
    let mut last = None;
    for value in 0..MOST_ENTRIES {
        let (back, place) = write(rt, alloc, &journal, object, tokens, value);
        tokens = back;
        last = place;
    }
    let (_, more) = write(rt, alloc, &journal, object, tokens, 0);
    Some([last, more])
}

// A blank for two registers, or one.
fn blank_of(alloc: Global, count: u32) -> Result<(Registers, Blank<Registers>), Memory>
    requires { (0 < count) × (count ≤ 32) }
    ensures { IfOk result (λ r. (ps : List ℕ) × (r.1.opening ≡ Some (r.0, ps))) }
{
    let parts = Vec::from_elem(alloc, 0, count as usize)?;
    let object = Registers { count };
    let beginning = Beginning {
        object,
        parts,
        part_count: count,
        station_count: count,
    };
    let blank = Blank::new(alloc, &beginning);
    let Beginning {
        object,
        parts: _,
        part_count: _,
        station_count: _,
    } = beginning;
    Ok((object, blank?))
}

#[test]
fn entries_stand_in_the_order_of_the_turns(rt: HostRuntime) -> Result<(), Fail> {
    let alloc = rt.alloc();
    let (object, blank) = blank_of(alloc, 2).ok().ok_or("a blank")?;
    let told = told::<Brand, _>(&rt, alloc, &object, blank).ok_or("an answer")?;
    assert!(rt; told.places == [Some(0), Some(1), Some(2), Some(3)]);
    assert_eq!(rt; told.last, 3);
    assert!(rt; told.too_many == Some(CopyFault::NoPoint(4)));
    assert!(rt; told.past_end == Some(CopyFault::NoPoint(4)));
    assert_eq!(rt; told.first_two.len(), 2);
    assert_eq!(rt; told.middle.len(), 2);
    assert!(rt; told.at_end.is_empty());
    assert!(rt; told.middle.get(0) == told.all.get(1));
    assert!(rt; told.middle.get(1) == told.all.get(2));
    assert_eq!(rt; told.all.len(), 4);
    // the station, the number, the register and the value
    for (place, (station, number, call)) in [
        (1u32, 1u32, (1u32, 5u32)),
        (0, 1, (0, 7)),
        (1, 2, (1, 6)),
        (1, 3, (0, 8)),
    ]
    .into_iter()
    .enumerate()
    {
        let entry = Entry {
            station,
            number,
            call,
        };
        assert!(rt; told.all.get(place) == Some(&entry), "at {place}");
        assert!(rt;
            place > 1 || told.first_two.get(place) == Some(&entry),
            "of two at {place}"
        );
    }
    Ok(())
}

#[test]
fn a_full_journal_takes_no_entry(rt: HostRuntime) -> Result<(), Fail> {
    let alloc = rt.alloc();
    let (object, blank) = blank_of(alloc, 1).ok().ok_or("a blank")?;
    let places = filled::<Brand, _>(&rt, alloc, &object, blank).ok_or("places")?;
    assert!(rt; places == [Some(99_999), None]);
    Ok(())
}
