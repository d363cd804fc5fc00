// Calls on counters, taken back: what each step is answered, and what the counters are then.
ghost use Rattle.std.specs.Prelude.{◌≡◌, ◌<◌, ◌∷◌, [], IfOk};
ghost use Rattle.take_back.specs.Parts.{fresh};

use history_points::{Places, apply_in_place};
use room_core::{Fault, Memory, PartObject};
use std::alloc::Global;
use std::marker::{Brand, Model};
use std::sync::ledger::{Blank, Ledger};
use step_count::Steps;
use take_back::laws::{taken_back_as_it_was, what_is_left_is_a_history};
use take_back::{BackDone, BackRefusal, Backed, Deed, Kept, Step};
use test_counters::Counters;

// A step over counters.
type Called = Step<(u32, u32)>;

// What a step is answered.
type Answer = Result<BackDone<u32>, BackRefusal<u32>>;

// What a station asks for: an amount more on counter 0 and another, or its call on some counters taken back.
#[derive(Clone, Copy)]
enum Asked {
    // Of this station, on this other counter, this amount.
    Add(u32, u32, u32),
    // Of this station, on this set of counters.
    Back(u32, u32),
}

// What is asked for, as a step.
fn step_of(asked: Asked) -> Called {
    match asked {
        Asked::Add(by, counter, amount) => Step {
            by,
            act: Deed::Do((counter, amount)),
        },
        Asked::Back(by, tracks) => Step {
            by,
            act: Deed::Back { tracks },
        },
    }
}

// Three counters that go up to 10, of which calls can be taken back.
#[derive(Drop)]
struct Desk {
    parts: Places<Kept<u32>>,
}

impl Model for Desk {
    ghost use Rattle.std.specs.Prelude.{List, ℕ};
    ghost use Rattle.room_core.specs.Parts.{AreGood, numbers};
    ghost use Rattle.room_core.specs.Totals.{at_most};
    ghost use Rattle.take_back.specs.declared.kept.Kept.{Kept as KeptPart};
    ghost use Rattle.take_back.specs.Parts.{IsGoodKept};

    ghost Value = { List (KeptPart ℕ) };

    ghost view = { λ d. d.parts };

    ghost invariant = { λ d. AreGood (IsGoodKept (at_most 10)) (numbers 0 3) d.parts };
}

// Three counters at 0, of which nothing can be taken back.
fn three_zeros(alloc: Global) -> Result<Vec<Kept<u32>>, Memory>
    ensures { IfOk result (λ parts. parts.items ≡ fresh 0 ∷ fresh 0 ∷ fresh 0 ∷ []) }
{
    let mut parts = Vec::new(alloc);
    parts.push(Kept::fresh(0))?;
    parts.push(Kept::fresh(0))?;
    parts.push(Kept::fresh(0))?;
    Ok(parts)
}

impl Desk {
    // The counters at 0.
    fn open(alloc: Global) -> Result<Desk, Memory> {
        let parts = Places::of(alloc, three_zeros(alloc)?)?;
        Ok(Desk { parts })
    }

    // Does a step on the counters, or takes one back.
    fn step<L: Ledger>(
        &mut self,
        alloc: Global,
        step: &Called,
        steps: &mut Steps<L>,
    ) -> Result<BackDone<u32>, Fault<BackRefusal<u32>>> {
        let object = Backed {
            object: Counters { count: 3, most: 10 },
        };
        apply_in_place(alloc, &object, &mut self.parts, step, steps)
    }

    // The counters as they are now.
    fn sums(self, alloc: Global) -> Result<Option<(u32, u32, u32)>, Memory> {
        let Desk { parts } = self;
        let parts = parts.into_vec(alloc)?;
        match parts.as_slice() {
            [total, first, second] => Ok(Some((total.now, first.now, second.now))),
            _ => Ok(None),
        }
    }
}

// `r` for a refusal of the object, `n` for a part that is not there, `y` for one that another station changed, `o` for
// one that a call on others changed; and the number.
fn told(refusal: &BackRefusal<u32>) -> (u8, u32) {
    match refusal {
        BackRefusal::Own(counter) => (b'r', *counter),
        BackRefusal::NoPart(part) => (b'n', *part),
        BackRefusal::NotYours(part) => (b'y', *part),
        BackRefusal::OtherTracks(part) => (b'o', *part),
    }
}

// A letter and a digit: `+` for a call that was done, with its sum, `-` for one that was taken back, else the refusal.
fn push_answer(answer: &Answer, log: &mut Vec<u8>) -> Result<(), Memory> {
    let (letter, number) = match answer {
        Ok(BackDone::Own(sum)) => (b'+', *sum),
        Ok(BackDone::Plain) => (b'-', 0),
        Err(refusal) => told(refusal),
    };
    log.push(letter)?;
    log.push(b'0' + (number % 10) as u8)?;
    Ok(())
}

// What a step is answered, or that there was no memory.
fn answered<L: Ledger>(
    alloc: Global,
    desk: &mut Desk,
    asked: Asked,
    steps: &mut Steps<L>,
) -> Result<Answer, Memory> {
    match desk.step(alloc, &step_of(asked), steps) {
        Ok(done) => Ok(Ok(done)),
        Err(Fault::Refused(refusal)) => Ok(Err(refusal)),
        Err(Fault::Memory) => Err(Memory),
    }
}

// The answers as a log, and the counters at the end.
type Outcome = (Vec<u8>, Option<(u32, u32, u32)>);

// What `outcome_of` gives, with its steps counted in a ledger of the call.
fn outcome_counted<L: Ledger>(
    blank: Blank,
    alloc: Global,
    asked: &[Asked],
) -> Result<Outcome, Memory>
    requires { (blank.name ≡ L.name) × (blank.parts ≡ L.parts) × (0 < blank.parts) }
{
    let mut steps = Steps::<L>::new(blank);
    let mut desk = Desk::open(alloc)?;
    let mut log = Vec::new(alloc);
    for one in asked {
        let answer = answered(alloc, &mut desk, *one, &mut steps)?;
        push_answer(&answer, &mut log)?;
    }
    Ok((log, desk.sums(alloc)?))
}

// What counters at 0 answer to each of these, one after another, and what they are then.
fn outcome_of(alloc: Global, asked: &[Asked]) -> Result<Outcome, Memory> {
    outcome_counted::<Brand>(Blank::new(1), alloc, asked)
}

// Whether counters at 0 answer so to each of these, one after another, and are then these.
fn comes_to(
    alloc: Global,
    asked: &[Asked],
    answers: &str,
    sums: (u32, u32, u32),
) -> Result<bool, Memory> {
    let (log, now) = outcome_of(alloc, asked)?;
    Ok(log.as_slice() == answers.as_bytes() && now == Some(sums))
}

#[test]
fn a_station_takes_back_its_own_last_call(rt: HostRuntime) -> Result<(), Memory> {
    use Asked::{Add, Back};
    // what is asked, what is answered, the counters then
    let cases: [(&[Asked], &str, (u32, u32, u32)); 7] = [
        (&[Add(1, 1, 5), Back(1, 0b11)], "+5-0", (0, 0, 0)),
        (
            &[Add(1, 1, 5), Add(1, 1, 2), Back(1, 0b11)],
            "+5+7-0",
            (5, 5, 0),
        ),
        (
            &[Add(0, 2, 3), Back(0, 0b101), Add(0, 2, 3)],
            "+3-0+3",
            (3, 0, 3),
        ),
        // nothing more can be taken back
        (
            &[Add(1, 1, 5), Add(1, 1, 2), Back(1, 0b11), Back(1, 0b11)],
            "+5+7-0y0",
            (5, 5, 0),
        ),
        // until something is done again
        (
            &[Add(1, 1, 5), Back(1, 0b11), Add(2, 1, 4), Back(2, 0b11)],
            "+5-0+4-0",
            (0, 0, 0),
        ),
        // a call that is refused changes nothing
        (
            &[
                Add(1, 1, 5),
                Add(2, 1, 6),
                Add(2, 0, 1),
                Add(2, 3, 1),
                Back(1, 0b11),
            ],
            "+5r5r0r3-0",
            (0, 0, 0),
        ),
        (&[Back(1, 0b11)], "y0", (0, 0, 0)),
    ];
    for (asked, answers, sums) in cases {
        assert!(rt; comes_to(rt.alloc(), asked, answers, sums)?, "{answers}");
    }
    Ok(())
}

#[test]
fn what_another_station_did_is_not_taken_back(rt: HostRuntime) -> Result<(), Memory> {
    use Asked::{Add, Back};
    // what is asked, what is answered, the counters then
    let cases: [(&[Asked], &str, (u32, u32, u32)); 6] = [
        (&[Add(1, 1, 5), Back(2, 0b11)], "+5y0", (5, 5, 0)),
        (&[Add(1, 1, 5), Back(0, 0b11)], "+5y0", (5, 5, 0)),
        (
            &[Add(1, 1, 5), Add(2, 1, 1), Back(1, 0b11)],
            "+5+6y0",
            (6, 6, 0),
        ),
        // another station's call on one of the parts is enough
        (
            &[Add(1, 1, 5), Add(2, 2, 1), Back(1, 0b11), Back(2, 0b101)],
            "+5+6y0-0",
            (5, 5, 0),
        ),
        // what it took back leaves nothing to be taken back
        (
            &[Add(1, 1, 5), Add(2, 1, 1), Back(2, 0b11), Back(1, 0b11)],
            "+5+6-0y0",
            (5, 5, 0),
        ),
        // the first part of which the station did not change last
        (
            &[Add(1, 1, 5), Add(2, 2, 1), Add(1, 1, 1), Back(1, 0b111)],
            "+5+6+7y2",
            (7, 6, 1),
        ),
    ];
    for (asked, answers, sums) in cases {
        assert!(rt; comes_to(rt.alloc(), asked, answers, sums)?, "{answers}");
    }
    Ok(())
}

#[test]
fn a_call_is_taken_back_on_all_its_parts_and_no_other(rt: HostRuntime) -> Result<(), Memory> {
    use Asked::{Add, Back};
    // what is asked, what is answered, the counters then
    let cases: [(&[Asked], &str, (u32, u32, u32)); 7] = [
        (&[Add(1, 1, 5), Back(1, 0b1)], "+5o0", (5, 5, 0)),
        (&[Add(1, 1, 5), Back(1, 0b10)], "+5o1", (5, 5, 0)),
        // a part of which nothing can be taken back comes before one with other names
        (&[Add(1, 1, 5), Back(1, 0b111)], "+5y2", (5, 5, 0)),
        (
            &[Add(1, 1, 5), Add(1, 2, 1), Back(1, 0b11)],
            "+5+6o0",
            (6, 5, 1),
        ),
        (
            &[Add(1, 1, 5), Add(1, 2, 1), Back(1, 0b111)],
            "+5+6o0",
            (6, 5, 1),
        ),
        (
            &[Add(1, 1, 5), Add(1, 2, 1), Back(1, 0b101), Back(1, 0b11)],
            "+5+6-0y0",
            (5, 5, 0),
        ),
        (
            &[Add(1, 1, 5), Add(1, 2, 1), Back(1, 0b101), Back(1, 0b10)],
            "+5+6-0o1",
            (5, 5, 0),
        ),
    ];
    for (asked, answers, sums) in cases {
        assert!(rt; comes_to(rt.alloc(), asked, answers, sums)?, "{answers}");
    }
    Ok(())
}

#[test]
fn a_part_that_is_not_there_is_told_first(rt: HostRuntime) -> Result<(), Memory> {
    use Asked::{Add, Back};
    // what is asked, what is answered, the counters then
    let cases: [(&[Asked], &str, (u32, u32, u32)); 5] = [
        // no part at all
        (&[Add(1, 1, 5), Back(1, 0)], "+5n3", (5, 5, 0)),
        (&[Back(1, 0b1000)], "n3", (0, 0, 0)),
        (&[Add(1, 1, 5), Back(1, 0b110011)], "+5n4", (5, 5, 0)),
        (&[Add(1, 1, 5), Back(2, 0b101001)], "+5n3", (5, 5, 0)),
        (&[Back(1, 1 << 31)], "n1", (0, 0, 0)),
    ];
    for (asked, answers, sums) in cases {
        assert!(rt; comes_to(rt.alloc(), asked, answers, sums)?, "{answers}");
    }
    what_is_left_is_a_history::<Counters>();
    taken_back_as_it_was::<Counters>();
    Ok(())
}

// Whether copies are equal, through the trait's bound.
fn copied<O: PartObject>(
    alloc: Global,
    object: &O,
    part: &O::Part,
    call: &O::Call,
) -> Result<(O::Part, O::Call), Memory>
    ensures { IfOk result (λ r. (r.0 ≡ part.now) × (r.1 ≡ call.now)) }
{
    Ok((
        object.copy_part(alloc, part)?,
        object.copy_call(alloc, call)?,
    ))
}

// Why a step is refused for the parts that it names.
fn refused(object: &Backed<Counters>, step: &Called) -> Option<(u8, u32)> {
    match object.refuse_names(step) {
        Some(refusal) => Some(told(&refusal)),
        None => None,
    }
}

#[test]
fn steps_are_calls_of_an_object(rt: HostRuntime) -> Result<(), Memory> {
    let alloc = rt.alloc();
    let object = Backed {
        object: Counters { count: 3, most: 10 },
    };
    assert_eq!(rt; object.parts(), 3);
    // a step, the set of parts that it names, its refusal for them
    for (asked, names, refusal) in [
        (Asked::Add(1, 2, 5), 0b101, None),
        (Asked::Add(1, 0, 5), 0b10, Some((b'r', 0))),
        (Asked::Back(1, 0b11), 0b11, None),
        (Asked::Back(1, 0), 0, Some((b'n', 3))),
        (Asked::Back(1, 0b1001), 0b1001, Some((b'n', 3))),
    ] {
        let step = step_of(asked);
        assert_eq!(rt; object.names(&step), names);
        assert!(rt; refused(&object, &step) == refusal, "{names}");
    }
    assert_eq!(rt; object.ask_part(&2), Ok(2));
    assert_eq!(rt; object.ask_part(&3), Err(3));
    let step = step_of(Asked::Add(1, 2, 5));
    let (part, copy) = copied(alloc, &object, &Kept::fresh(7), &step)?;
    assert!(rt; part.now == 7 && part.before.is_none());
    assert!(rt; copy == step);
    let step = step_of(Asked::Back(2, 0b11));
    let (_, copy) = copied(alloc, &object, &part, &step)?;
    assert!(rt; copy == step);
    Ok(())
}
