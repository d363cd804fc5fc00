// Replays of steps over two sides: what is taken back is as if it had not been done, whatever others did elsewhere.
ghost use Rattle.std.specs.Prelude.{◌≡◌, IfOk};
ghost use Rattle.room_core.specs.Parts.{AreGood, numbers};
ghost use Rattle.take_back.specs.Parts.{CanOpen, IsGoodKept};
ghost use Rattle.test_parts.specs.Sides.{is_any, AreTwo};

use crate::sides::Sides;
use history_points::{ReplayFault, replay};
use room_core::{Entry, Memory};
use std::alloc::Global;
use take_back::{Backed, Deed, Kept, Step};

// What a station asks for: a number written over a side, or its call on some sides taken back.
#[derive(Clone, Copy)]
enum Asked {
    // Of this station, this number, even for the first side and odd for the second.
    Write(u32, u32),
    // Of this station, on this set of sides.
    Back(u32, u32),
}

// What is asked for, as an entry.
fn entry_of(asked: Asked) -> Entry<Step<u32>> {
    let (by, act) = match asked {
        Asked::Write(by, number) => (by, Deed::Do(number)),
        Asked::Back(by, tracks) => (by, Deed::Back { tracks }),
    };
    Entry {
        station: by,
        number: 1,
        call: Step { by, act },
    }
}

// What is asked for, as entries in their order.
fn entries_of(alloc: Global, asked: &[Asked]) -> Result<Vec<Entry<Step<u32>>>, Memory> {
    let mut entries = Vec::new(alloc);
    for one in asked {
        entries.push(entry_of(*one))?;
    }
    Ok(entries)
}

// Two sides at 0, of which nothing can be taken back.
fn two_zeros(alloc: Global) -> Result<Vec<Kept<u32>>, Memory>
    ensures opens { IfOk result (λ parts. CanOpen AreTwo parts.items) }
    ensures good { IfOk result (λ parts. AreGood (IsGoodKept is_any) (numbers 0 2) parts.items) }
{
    let mut parts = Vec::new(alloc);
    parts.push(Kept::fresh(0))?;
    parts.push(Kept::fresh(0))?;
    Ok(parts)
}

// The two sides as they are now.
fn sides_of(parts: &[Kept<u32>]) -> Option<(u32, u32)> {
    match parts {
        [first, second] => Some((first.now, second.now)),
        _ => None,
    }
}

// The sides after these, one after another on two zeros, or the first that does not apply.
fn replayed(alloc: Global, asked: &[Asked]) -> Result<Result<Option<(u32, u32)>, u32>, Memory> {
    let object = Backed { object: Sides };
    let opening = two_zeros(alloc)?;
    let entries = entries_of(alloc, asked)?;
    if entries.len() > 100_000 {
        return Err(Memory);
    }
    match replay(alloc, &object, &opening, &entries, entries.len() as u32) {
        Ok(parts) => Ok(Ok(sides_of(&parts))),
        Err(ReplayFault::Refused(place)) => Ok(Err(place)),
        Err(ReplayFault::Memory) => Err(Memory),
    }
}

#[test]
fn steps_on_other_parts_may_stand_between(rt: HostRuntime) -> Result<(), Memory> {
    use Asked::{Back, Write};
    // what is asked, and the sides then or the first that does not apply
    let cases: [(&[Asked], Result<Option<(u32, u32)>, u32>); 10] = [
        (&[Write(1, 4), Write(2, 5)], Ok(Some((4, 5)))),
        (&[Write(1, 4), Write(2, 5), Back(1, 0b1)], Ok(Some((0, 5)))),
        (
            &[
                Write(1, 4),
                Write(2, 5),
                Write(2, 7),
                Back(1, 0b1),
                Back(2, 0b10),
            ],
            Ok(Some((0, 5))),
        ),
        (
            &[
                Write(1, 8),
                Write(1, 4),
                Write(2, 5),
                Back(2, 0b10),
                Back(1, 0b1),
            ],
            Ok(Some((8, 0))),
        ),
        // a taking back elsewhere stands between as well
        (
            &[Write(1, 4), Write(1, 5), Back(1, 0b1), Back(1, 0b10)],
            Ok(Some((0, 0))),
        ),
        (
            &[
                Write(1, 4),
                Back(1, 0b1),
                Write(1, 4),
                Back(1, 0b1),
                Write(1, 6),
            ],
            Ok(Some((6, 0))),
        ),
        (&[Write(1, 4), Write(2, 6), Back(1, 0b1)], Err(2)),
        (&[Write(1, 4), Write(1, 5), Back(1, 0b11)], Err(2)),
        (&[Write(1, 4), Back(1, 0b1), Back(1, 0b1)], Err(2)),
        (&[Back(1, 0b100)], Err(0)),
    ];
    for (asked, want) in cases {
        assert_eq!(rt; replayed(rt.alloc(), asked)?, want);
    }
    Ok(())
}
