// The machine beside a second program, which keeps the lawful events alone and computes all anew from them: on every list
// of up to six events.
use room_core::Memory;
use std::alloc::Global;
use test_counters::{Counters, Event, Stations};

// How many counters there are.
const PARTS: u32 = 3;

// What no counter may pass.
const MOST: u32 = 3;

// How many events are tried at each place of a list.
const LETTERS: u32 = 9;

// How many lists of six there are: LETTERS to the power 6.
const LISTS: u32 = 531_441;

// The event of a letter. Station 1 takes counters 0 and 1, station 2 takes 0 and 2. Station 1 commits under numbers
// that rise or do not, calls that pass the bound one after another or do not.
fn letter(number: u32) -> Event {
    let (first, second) = (1, 2);
    let committed = |station, number, call| Event::Commit {
        station,
        number,
        call,
    };
    match number {
        0 => Event::Take {
            station: first,
            part: 0,
        },
        1 => Event::Take {
            station: first,
            part: 1,
        },
        2 => Event::Take {
            station: second,
            part: 0,
        },
        3 => Event::Take {
            station: second,
            part: 2,
        },
        4 => Event::Give {
            station: first,
            part: 0,
        },
        5 => committed(first, 1, (1, 2)),
        6 => committed(first, 2, (1, 1)),
        7 => committed(first, 3, (1, 2)),
        _ => committed(second, 1, (2, 3)),
    }
}

// The station that took the counter last and has not given it back.
fn holder(lawful: &[Event], counter: u32) -> Option<u32> {
    let mut holder = None;
    for event in lawful {
        match *event {
            Event::Take { station, part } => {
                if part == counter {
                    holder = Some(station);
                }
            }
            Event::Give { part, .. } => {
                if part == counter {
                    holder = None;
                }
            }
            Event::Commit { .. } => {}
        }
    }
    holder
}

// What the calls added to the counter.
fn sum(lawful: &[Event], counter: u32) -> u32 {
    let mut sum = 0u32;
    for event in lawful {
        match *event {
            Event::Commit { call, .. } => {
                if counter == 0 || call.0 == counter {
                    sum = sum.saturating_add(call.1);
                }
            }
            _ => {}
        }
    }
    sum
}

// The number that the station used last.
fn last_number(lawful: &[Event], of: u32) -> Option<u32> {
    let mut last = None;
    for event in lawful {
        match *event {
            Event::Commit {
                station,
                number,
                ..
            } => {
                if station == of {
                    last = Some(number);
                }
            }
            _ => {}
        }
    }
    last
}

// Whether an amount more on the counter does not pass the bound.
fn has_room(lawful: &[Event], counter: u32, amount: u32) -> bool {
    sum(lawful, counter).saturating_add(amount) <= MOST
}

// Whether the machine does an event after these.
fn is_lawful(lawful: &[Event], event: Event) -> bool {
    match event {
        Event::Take { part, .. } => part < PARTS && holder(lawful, part).is_none(),
        Event::Give { station, part } => holder(lawful, part) == Some(station),
        Event::Commit {
            station,
            number,
            call: (counter, amount),
        } => {
            counter != 0
                && holder(lawful, 0) == Some(station)
                && holder(lawful, counter) == Some(station)
                && last_number(lawful, station) < Some(number)
                && has_room(lawful, 0, amount)
                && has_room(lawful, counter, amount)
        }
    }
}

// Whether the machine's counters and their holders are those of the lawful events.
fn counters_agree(machine: &Stations, lawful: &[Event]) -> bool {
    let counts = machine.parts().len() == PARTS as usize
        && machine.holders().len() == PARTS as usize;
    counts
        && (0..PARTS).all(|counter| {
            machine.parts().get(counter as usize) == Some(&sum(lawful, counter))
                && machine.holders().get(counter as usize) == Some(&holder(lawful, counter))
        })
}

// Whether the machine's history has the commits of the lawful events and no other, in their order.
fn histories_agree(machine: &Stations, lawful: &[Event]) -> bool {
    let mut left = machine.history();
    for event in lawful {
        match *event {
            Event::Commit {
                station,
                number,
                call,
            } => match left {
                [entry, rest @ ..] => {
                    if entry.station != station || entry.number != number || entry.call != call {
                        return false;
                    }
                    left = rest;
                }
                [] => return false,
            },
            _ => {}
        }
    }
    left.is_empty()
}

// Does the events of a list one after another, the list being a number with LETTERS as its base, and compares where only
// letters 0 are to come: so each list of up to six events is compared once.
fn agree(alloc: Global, list: u32) -> Result<bool, Memory> {
    let object = Counters {
        count: PARTS,
        most: MOST,
    };
    let mut opening = Vec::new(alloc);
    for _ in 0..PARTS {
        opening.push(0)?;
    }
    let mut machine = Stations::of(alloc, opening)?;
    let mut lawful = Vec::new(alloc);
    let mut left = list;
    for _ in 0..6 {
        let event = letter(left % LETTERS);
        left /= LETTERS;
        if is_lawful(&lawful, event) {
            lawful.push(event)?;
        }
        machine.step(&object, event)?;
        let agree = left > 0
            || counters_agree(&machine, &lawful) && histories_agree(&machine, &lawful);
        if !agree {
            return Ok(false);
        }
    }
    Ok(true)
}

#[test]
fn the_machine_is_that_of_its_lawful_events(rt: HostRuntime) -> Result<(), Memory> {
    let alloc = rt.alloc();
    for list in 0..LISTS {
        assert!(rt; agree(alloc, list)?, "list {list}");
    }
    Ok(())
}
