// Mirrors of a history of counters: what each entry is answered, and what is mirrored then.
ghost use Rattle.std.specs.Prelude.{◌≡◌, ◌<◌, ◌≤◌, IfOk};
ghost use Rattle.room_core.specs.Totals.{CanOpen};

use cut_mirror::laws::streams_come_to_one_list;
use cut_mirror::{Mirror, MirrorFault};
use room_core::{Entry, Memory};
use std::alloc::Global;
use test_counters::Counters;

// Three counters at 0.
fn zeros(alloc: Global) -> Result<Vec<u32>, Memory>
    ensures { IfOk result (λ parts. CanOpen 3 10 parts.items) }
{
    let mut parts = Vec::new(alloc);
    parts.push(0)?;
    parts.push(0)?;
    parts.push(0)?;
    Ok(parts)
}

// A mirror of counters that go up to 10.
fn opened(alloc: Global) -> Result<Mirror<Counters>, Memory> {
    let object = Counters { count: 3, most: 10 };
    let parts = zeros(alloc)?;
    Ok(Mirror::open(alloc, object, parts))
}

// An entry: its station and number, the other counter than 0, and the amount.
type Sent = (u32, u32, u32, u32);

// Has a mirror take this entry at a place.
fn take(
    alloc: Global,
    mirror: &mut Mirror<Counters>,
    place: u32,
    (station, number, counter, amount): Sent,
) -> Result<(), MirrorFault> {
    let entry = Entry {
        station,
        number,
        call: (counter, amount),
    };
    mirror.take(alloc, place, entry)
}

// Whether a mirror has so many entries and these counters.
fn shows(mirror: &Mirror<Counters>, point: u32, sums: [u32; 3]) -> bool {
    mirror.point() == point && mirror.parts() == sums.as_slice()
}

#[test]
fn a_mirror_goes_on_by_one_entry(rt: HostRuntime) -> Result<(), Memory> {
    let alloc = rt.alloc();
    let mut mirror = opened(alloc)?;
    assert!(rt; shows(&mirror, 0, [0, 0, 0]));
    // place, entry, the point then, the counters
    for (place, sent, point, sums) in [
        (0u32, (7, 2, 1, 5), 1u32, [5, 5, 0]),
        // an entry that is there changes nothing
        (0, (7, 2, 1, 5), 1, [5, 5, 0]),
        // the numbers of another station are its own
        (1, (8, 1, 2, 2), 2, [7, 5, 2]),
        (2, (7, 3, 1, 1), 3, [8, 6, 2]),
        (1, (8, 1, 2, 2), 3, [8, 6, 2]),
        (3, (0, 0, 2, 2), 4, [10, 6, 4]),
        (4, (7, 4_000_000_000, 1, 0), 5, [10, 6, 4]),
    ] {
        assert!(rt; take(alloc, &mut mirror, place, sent) == Ok(()), "{place}");
        assert!(rt; shows(&mirror, point, sums), "{place}");
    }
    streams_come_to_one_list::<Counters>();
    Ok(())
}

#[test]
fn an_entry_that_is_not_taken_changes_nothing(rt: HostRuntime) -> Result<(), Memory> {
    use MirrorFault::{Differs, Gap, Late, Refused};
    let alloc = rt.alloc();
    let mut mirror = opened(alloc)?;
    assert!(rt; take(alloc, &mut mirror, 1, (7, 1, 1, 5)) == Err(Gap(0)));
    assert!(rt; shows(&mirror, 0, [0, 0, 0]));
    assert!(rt; take(alloc, &mut mirror, 0, (7, 2, 1, 5)) == Ok(()));
    // place, entry, the fault
    for (place, sent, fault) in [
        (2u32, (7, 3, 1, 1), Gap(1)),
        (u32::MAX, (7, 3, 1, 1), Gap(1)),
        (0, (8, 2, 1, 5), Differs(0)),
        (0, (7, 3, 1, 5), Differs(0)),
        (0, (7, 2, 2, 5), Differs(0)),
        (0, (7, 2, 1, 4), Differs(0)),
        (1, (7, 2, 2, 1), Late(1)),
        (1, (7, 0, 2, 1), Late(1)),
        // a number that is late comes before a call that does not apply
        (1, (7, 2, 1, 6), Late(1)),
        (1, (7, 3, 1, 6), Refused(1)),
        (1, (7, 3, 0, 1), Refused(1)),
        (1, (8, 1, 3, 1), Refused(1)),
    ] {
        assert!(rt;
            take(alloc, &mut mirror, place, sent) == Err(fault),
            "{fault:?}"
        );
        assert!(rt; shows(&mirror, 1, [5, 5, 0]), "{fault:?}");
    }
    assert!(rt; take(alloc, &mut mirror, 1, (7, 3, 1, 5)) == Ok(()));
    assert!(rt; shows(&mirror, 2, [10, 10, 0]));
    Ok(())
}

#[test]
fn a_mirror_has_100000_entries_at_most(rt: HostRuntime) -> Result<(), Memory> {
    use MirrorFault::{Differs, Full, Gap};
    let alloc = rt.alloc();
    let mut mirror = opened(alloc)?;
    for place in 0..100_000 {
        assert!(rt; take(alloc, &mut mirror, place, (7, place, 1, 0)) == Ok(()));
    }
    assert!(rt; shows(&mirror, 100_000, [0, 0, 0]));
    // place, entry, what it is answered
    for (place, sent, answer) in [
        (100_000u32, (7, 100_000, 1, 1), Err(Full)),
        // before a number that is late, and a call that does not apply
        (100_000, (7, 0, 0, 1), Err(Full)),
        (100_001, (7, 100_000, 1, 1), Err(Gap(100_000))),
        (99_999, (7, 99_999, 1, 1), Err(Differs(99_999))),
        (99_999, (7, 99_999, 1, 0), Ok(())),
    ] {
        assert!(rt; take(alloc, &mut mirror, place, sent) == answer, "{place}");
    }
    assert!(rt; shows(&mirror, 100_000, [0, 0, 0]));
    Ok(())
}
