// Counters meet the trait, and the machine over them.
ghost use Rattle.std.specs.Prelude.{◌≡◌, ◌<◌, IfOk, [], ◌∷◌};
ghost use Rattle.room_core.specs.Machine.{opened, run};
ghost use Rattle.room_core.specs.Totals.{counters, worked};

use room_core::laws::serial_law;
use room_core::{Entry, Fault, Memory, PartObject};
use std::alloc::Global;
use std::marker::Brand;
use std::sync::ledger::{Blank, Ledger};
use step_count::Steps;
use test_counters::Counters;

// What a call answers, or what it refuses, and what it leaves on counter 0 and the other.
type Called = (Result<u32, u32>, u32, u32);

// What a call comes to on counter 0 and another; `None` where it is refused for its names.
fn called<L: Ledger>(
    alloc: Global,
    object: &Counters,
    (total, counter): (u32, u32),
    call: &(u32, u32),
    steps: &mut Steps<L>,
) -> Result<Option<Called>, Memory> {
    let most = object.most;
    if total > most || counter > most || object.refuse_names(call).is_some() {
        return Ok(None);
    }
    let mut parts = Vec::new(alloc);
    parts.push(total)?;
    parts.push(counter)?;
    let answer = match object.apply(alloc, &mut parts, call, steps) {
        Ok(total) => Ok(total),
        Err(Fault::Refused(part)) => Err(part),
        Err(Fault::Memory) => return Err(Memory),
    };
    match parts.as_slice() {
        [total, counter] => Ok(Some((answer, *total, *counter))),
        _ => Ok(None),
    }
}

// What `called` gives, with the steps counted in a ledger of the call.
fn called_once<L: Ledger>(
    blank: Blank,
    alloc: Global,
    object: &Counters,
    parts: (u32, u32),
    call: &(u32, u32),
) -> Result<Option<Called>, Memory>
    requires { (blank.name ≡ L.name) × (blank.parts ≡ L.parts) × (0 < blank.parts) }
{
    let mut steps = Steps::<L>::new(blank);
    called(alloc, object, parts, call, &mut steps)
}

// Whether copies are equal, through the trait's bound.
fn copies_are_equal<O: PartObject>(
    alloc: Global,
    object: &O,
    part: &O::Part,
    call: &O::Call,
) -> Result<(O::Part, Entry<O::Call>), Memory>
    ensures { IfOk result (λ r. (r.0 ≡ part.now) × (r.1.call ≡ call.now)) }
{
    let part = object.copy_part(alloc, part)?;
    let call = object.copy_call(alloc, call)?;
    let entry = Entry {
        station: 0,
        number: 1,
        call,
    };
    Ok((part, entry))
}

// What the machine comes to after the worked events.
fn worked_run()
    ensures parts { (run (counters 3 10) (opened (0 ∷ 0 ∷ 0 ∷ [])) worked).parts ≡ 6 ∷ 6 ∷ 0 ∷ [] }
    ensures history { (run (counters 3 10) (opened (0 ∷ 0 ∷ 0 ∷ [])) worked).history
        ≡ record { station = 7; number = 1; call = (1, 5) } ∷ record {
          station = 8;
          number = 1;
          call = (1, 1);
        } ∷ [] }
{}

#[test]
fn counters_are_an_object(rt: HostRuntime) -> Result<(), Memory> {
    let alloc = rt.alloc();
    let object = Counters { count: 3, most: 10 };
    assert_eq!(rt; object.parts(), 3);
    assert_eq!(rt; object.names(&(2, 5)), 0b101);
    assert_eq!(rt; object.names(&(40, 5)), 0b1);
    for (counter, refusal) in [(0, Some(0)), (1, None), (2, None), (3, Some(3))] {
        assert_eq!(rt; object.refuse_names(&(counter, 1)), refusal, "{counter}");
    }
    assert_eq!(rt; object.ask_part(&2), Ok(2));
    assert_eq!(rt; object.ask_part(&3), Err(3));
    let (part, entry) = copies_are_equal(alloc, &object, &7, &(1, 2))?;
    assert_eq!(rt; part, 7);
    assert_eq!(rt; entry.call, (1, 2));
    // the total and the counter, the amount, the answer, what is left
    for (parts, amount, answer, left) in [
        ((0u32, 0u32), 10, Ok(10), (10, 10)),
        ((0, 0), 11, Err(0), (0, 0)),
        ((3, 2), 8, Err(3), (3, 2)),
        ((2, 3), 8, Err(3), (2, 3)),
        ((2, 3), 7, Ok(9), (9, 10)),
    ] {
        let done = called_once::<Brand>(Blank::new(1), alloc, &object, parts, &(1, amount))?;
        assert!(rt; done == Some((answer, left.0, left.1)), "{amount} more");
    }
    worked_run();
    serial_law::<Counters>();
    Ok(())
}
