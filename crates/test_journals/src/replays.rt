// Replays over counters.
ghost use Rattle.std.specs.Prelude.{◌≡◌, ◌<◌, ◌≤◌, All, IfOk};
ghost use Rattle.room_core.specs.Parts.{AreGood, numbers};
ghost use Rattle.room_core.specs.Totals.{at_most, CanOpen};

use history_points::{Places, ReplayFault, apply_in_place, replay};
use room_core::{Entry, Fault, Memory};
use std::alloc::Global;
use std::marker::Brand;
use std::sync::ledger::{Blank, Ledger};
use step_count::Steps;
use test_counters::Counters;

// What counter 0 and the two others come to.
type Sums = (u32, u32, u32);

// Three counters at 0.
fn zeros(alloc: Global) -> Result<Vec<u32>, Memory>
    ensures { IfOk result (λ parts. CanOpen 3 10 parts.items) }
{
    let mut parts = Vec::new(alloc);
    parts.push(0)?;
    parts.push(0)?;
    parts.push(0)?;
    Ok(parts)
}

// What three counters have come to.
fn sums_of(parts: &[u32]) -> Option<Sums> {
    match parts {
        [total, first, second] => Some((*total, *first, *second)),
        _ => None,
    }
}

// The sums after the first entries of a list, or the first entry that does not apply. Each entry bears the number 1.
fn replayed(
    alloc: Global,
    calls: &[(u32, u32)],
    n: u32,
) -> Result<Result<Option<Sums>, u32>, Memory> {
    let object = Counters { count: 3, most: 10 };
    let opening = zeros(alloc)?;
    let mut entries = Vec::new(alloc);
    for call in calls {
        entries.push(Entry {
            station: 0,
            number: 1,
            call: *call,
        })?;
    }
    if n as usize > entries.len() || n > 100_000 {
        return Err(Memory);
    }
    match replay(alloc, &object, &opening, &entries, n) {
        Ok(parts) => Ok(Ok(sums_of(&parts))),
        Err(ReplayFault::Refused(k)) => Ok(Err(k)),
        Err(ReplayFault::Memory) => Err(Memory),
    }
}

// What a call answers on three counters at 0, and the sums after it.
type Called = (Result<u32, u32>, Option<Sums>);

// Does a call on three counters at 0, in their places.
fn called<L: Ledger>(blank: Blank, alloc: Global, call: &(u32, u32)) -> Result<Called, Memory>
    requires { (blank.name ≡ L.name) × (blank.parts ≡ L.parts) × (0 < blank.parts) }
{
    let mut steps = Steps::<L>::new(blank);
    let object = Counters { count: 3, most: 10 };
    let mut parts = Places::of(alloc, zeros(alloc)?)?;
    let done = match apply_in_place(alloc, &object, &mut parts, call, &mut steps) {
        Ok(total) => Ok(total),
        Err(Fault::Refused(counter)) => Err(counter),
        Err(Fault::Memory) => return Err(Memory),
    };
    let sums = sums_of(&parts.into_vec(alloc)?);
    Ok((done, sums))
}

#[test]
fn replays_the_first_entries(rt: HostRuntime) -> Result<(), Memory> {
    let alloc = rt.alloc();
    let calls = [(1u32, 5u32), (2, 3), (1, 3), (2, 1)];
    for (n, result) in [
        (0, Ok(Some((0, 0, 0)))),
        (1, Ok(Some((5, 5, 0)))),
        (2, Ok(Some((8, 5, 3)))),
        (3, Err(2)),
        (4, Err(2)),
    ] {
        assert_eq!(rt; replayed(alloc, &calls, n)?, result, "the first {n}");
    }
    for (calls, result) in [
        ([(0u32, 1u32), (1, 1)], Err(0)),
        ([(1, 1), (3, 1)], Err(1)),
        ([(2, 4), (1, 6)], Ok(Some((10, 6, 4)))),
    ] {
        assert_eq!(rt; replayed(alloc, &calls, 2)?, result, "{calls:?}");
    }
    Ok(())
}

// The sums after the first entries of six calls, of which one gave way to another that does not
// apply, as `replayed` gives them.
fn stopped(
    alloc: Global,
    at: usize,
    refused: (u32, u32),
    n: u32,
) -> Result<Result<Option<Sums>, u32>, Memory> {
    let mut calls = [(1u32, 1u32), (2, 1), (1, 2), (2, 2), (1, 1), (2, 1)];
    if at < calls.len() {
        calls[at] = refused;
    }
    replayed(alloc, &calls, n)
}

#[test]
fn stops_at_each_place(rt: HostRuntime) -> Result<(), Memory> {
    let alloc = rt.alloc();
    let after = [
        (0u32, 0u32, 0u32),
        (1, 1, 0),
        (2, 1, 1),
        (4, 3, 1),
        (6, 3, 3),
        (7, 4, 3),
        (8, 4, 4),
    ];
    for refused in [(0u32, 1u32), (3, 1), (1, 11)] {
        for at in 0..6u32 {
            for (n, sums) in (0..7u32).zip(after) {
                let want = if at < n { Err(at) } else { Ok(Some(sums)) };
                let result = stopped(alloc, at as usize, refused, n)?;
                assert_eq!(rt; result, want, "{refused:?} at {at}, the first {n}");
            }
        }
    }
    Ok(())
}

#[test]
fn does_calls_in_place(rt: HostRuntime) -> Result<(), Memory> {
    let alloc = rt.alloc();
    for (call, answer, sums) in [
        ((1u32, 10u32), Ok(10), (10, 10, 0)),
        ((2, 4), Ok(4), (4, 0, 4)),
        ((1, 11), Err(0), (0, 0, 0)),
        ((0, 1), Err(0), (0, 0, 0)),
        ((3, 1), Err(3), (0, 0, 0)),
    ] {
        let done = called::<Brand>(Blank::new(1), alloc, &call)?;
        assert_eq!(rt; done, (answer, Some(sums)), "{call:?}");
    }
    Ok(())
}
