// The last call on some parts, taken back.
ghost use Rattle.std.specs.Prelude.{◌≡◌, ◌≤◌, ◌<◌, ◌+◌, Bool, Option, OnOk, OnErr, length, map, false};
ghost use Rattle.part_sets.specs.Members.{members};
ghost use Rattle.room_core.specs.Calls.{AnswersCall};
ghost use Rattle.take_back.specs.Parts.{first_not, given_back, has_names, is_by};
ghost use Rattle.take_back.specs.Rules.{passes};
ghost use Rattle.take_back.specs.Steps.{missing, taken_back};

use crate::{BackDone, BackRefusal, Former, Kept};
use part_sets::{first_absent, has};
use room_core::{Fault, PartObject};
use std::sync::ledger::Ledger;
use step_count::Steps;

// What is asked of a part's former part: that a call of this station changed it, or a call on these parts.
#[derive(Clone, Copy)]
pub(crate) enum Rule {
    // A call of this station changed it last.
    By(u32),
    // A call on these parts, a set, changed it last.
    Names(u32),
}

// Whether a part has a former part that keeps a rule.
fn passes<P>(rule: Rule, before: &Option<Former<P>>) -> bool
    ensures { result ≡ passes rule before.now }
{
    match before {
        Some(former) => match rule {
            Rule::By(station) => former.by == station,
            Rule::Names(names) => former.names == names,
        },
        None => false,
    }
}

// The number of the first of the named parts that breaks a rule. The parts stand in ascending order of their numbers.
fn first_not<P>(rule: Rule, tracks: u32, parts: &[Kept<P>]) -> Option<u32>
    requires as_many { length parts.now ≡ length (members tracks) }
    ensures { result ≡ first_not (passes rule) (members tracks) parts.now }
{
    let mut at = 0;
    for number in 0..32 {
        if has(tracks, number) {
            if !passes(rule, &parts[at].before) {
                return Some(number);
            }
            at += 1;
        }
    }
    None
}

// The least of the named parts that is not there; where none is named, the count of parts.
pub(crate) fn missing(count: u32, tracks: u32) -> Option<u32>
    ensures { result ≡ missing count (members tracks) }
{
    if tracks == 0 {
        Some(count)
    } else {
        first_absent(count, tracks)
    }
}

// Gives a part what it was before, of which nothing is kept then; one that has none stays.
fn give_back<P: Drop>(kept: &mut Kept<P>)
    ensures { kept.new ≡ given_back kept.old }
{
    match kept.before.take() {
        Some(
            Former {
                part,
                names: _,
                by: _,
            },
        ) => kept.now = part,
        None => {}
    }
}

// Gives each part what it was before. A step for each.
fn give_all_back<P: Drop, L: Ledger>(parts: &mut Vec<Kept<P>>, steps: &mut Steps<L>)
    ensures parts { parts.new.items ≡ map given_back parts.old.items }
    ensures steps { steps.new ≡ steps.old + length parts.old.items }
{
    for at in 0..parts.len() {
        give_back(&mut parts[at]);
        steps.tick();
    }
}

// Takes back the last call on the named parts, or says the first part whose last call was another station's or on other
// parts. It wants no memory.
pub(crate) fn take_back<O: PartObject, L: Ledger>(
    parts: &mut Vec<Kept<O::Part>>,
    tracks: u32,
    by: u32,
    steps: &mut Steps<L>,
) -> Result<BackDone<O::Done>, Fault<BackRefusal<O::Refusal>>>
    requires as_many { length parts.old.items ≡ length (members tracks) }
    requires some { 0 < length parts.old.items }
    ensures meant { AnswersCall false (taken_back by tracks parts.old.items)
        parts.old.items parts.new.items result }
    ensures given { OnOk result (parts.new.items ≡ map given_back parts.old.items) }
    ensures kept { OnErr result (parts.new.items ≡ parts.old.items) }
    ensures least { steps.old + 1 ≤ steps.new }
    ensures most { steps.new ≤ steps.old + length parts.old.items }
{
    match first_not(Rule::By(by), tracks, parts) {
        Some(number) => {
            steps.tick();
            return Err(Fault::Refused(BackRefusal::NotYours(number)));
        }
        None => {}
    }
    match first_not(Rule::Names(tracks), tracks, parts) {
        Some(number) => {
            steps.tick();
            return Err(Fault::Refused(BackRefusal::OtherTracks(number)));
        }
        None => {}
    }
    give_all_back(parts, steps);
    Ok(BackDone::Plain)
}
