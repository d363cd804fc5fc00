// Cuts that are kept, behind their lock, and what a cut is begun from.
ghost use Rattle.std.specs.Prelude.{◌≡◌, ◌+◌, ◌-◌, ◌<◌, ◌≤◌, [], IfErr, IfOk, IsSome, OnOk, Some, drop, length, take};
ghost use Rattle.room_core.specs.Projection.{of_station};
ghost use Rattle.edit_journal.specs.declared.name.Name.TheVariants.{Station};
ghost use Rattle.edit_journal.specs.Faults.{SaysNoPoint};
ghost use Rattle.edit_journal.specs.Turns.{AreFresh, IsJournal, StandsIn};
ghost use Rattle.history_points.specs.KeptCuts.{IsCutOf, kept_at};

use crate::CutFault;
use edit_journal::{Naming, Pass, Turn};
use history_points::{Points, copy_parts};
use room_core::{Entry, Memory, PartObject};
use std::alloc::Global;
use std::marker::Model;

/// How many entries a journal gains from one cut that is kept to the next. Once there are as many cuts as are kept, those
/// that are kept stand further apart.
pub const KEPT_EVERY: u32 = 256;

// What a cut is begun from: the parts after the first `from` entries, and the entries after these.
#[derive(Drop)]
pub struct Begun<O: PartObject> {
    pub from: u32,
    pub parts: Vec<O::Part>,
    pub entries: Vec<Entry<O::Call>>,
}

// All parts, as they stand after the first `point` entries.
#[derive(Drop)]
pub struct Standing<O: PartObject> {
    pub point: u32,
    pub parts: Vec<O::Part>,
}

// What lies behind the lock: cuts of the journal's history, and the pass of its last station, which adds no entry.
#[derive(Drop)]
pub struct Kept<O: PartObject, J: Naming<O, O::Part>> {
    points: Points<O, J>,
}

impl<O: PartObject, J: Naming<O, O::Part>> Model for Kept<O, J> {
    ghost use Rattle.std.specs.Prelude.{◌≡◌, ◌+◌};
    ghost use Rattle.history_points.specs.KeptCuts.{KeptCuts};

    ghost Value = { KeptCuts O O.Part O.Call };

    ghost view = { λ k. k.points };

    ghost invariant = { λ k. k.points.pass.number + 1 ≡ J.stations };
}

impl<O: PartObject, J: Naming<O, O::Part>> Kept<O, J> {
    // No cut, with the pass of the last station.
    pub fn new(alloc: Global, pass: Pass<O, J>) -> Self
        requires last { pass.number + 1 ≡ J.stations }
        requires own { of_station pass.number pass.entries ≡ [] }
    {
        Kept {
            points: Points::new(alloc, pass),
        }
    }

    // Shows the pass that is kept and another one all entries that there are, and answers how many. What they knew begins
    // them.
    pub fn meet(&mut self, turn: &mut Turn<'_, O, J>, pass: Pass<O, J>) -> (Pass<O, J>, u32)
        requires tokens { turn.old.tokens ≡ 0 }
        ensures pass { (result.0.number ≡ pass.number) × (result.0.opening ≡ pass.opening)
            × (result.0.entries ≡ turn.old.journal.entries) }
        ensures count { result.1 ≡ length turn.old.journal.entries }
        ensures journal { IsJournal O.meaning O.opens J.stations J.opening
            turn.old.journal.entries }
        ensures stands { StandsIn O.meaning J.opening turn.old.journal.entries
            (Station pass.number) pass.entries }
        ensures kept { self.new.pass.entries ≡ turn.old.journal.entries }
        ensures turn { (turn.new.journal.entries ≡ turn.old.journal.entries)
            × (turn.new.tokens ≡ 0) }
    {
        self.points.meet(turn);
        let station = pass.station();
        turn.gather_pass(pass);
        let count = turn.look();
        (turn.give_pass(station), count)
    }

    // The greatest point up to `n` at which a cut is kept, or 0, where the opening stands.
    pub fn nearest(&self, n: u32) -> u32
        ensures within { result ≤ n }
        ensures kept { 0 < result → IsSome (kept_at self.now.cuts result) }
    {
        match self.points.nearest(n) {
            Some(k) => k,
            None => 0,
        }
    }

    // A copy of the cut that is kept at a point, or of the opening at 0.
    pub fn copy(
        &self,
        alloc: Global,
        object: &O,
        opening: &[O::Part],
        k: u32,
    ) -> Result<Vec<O::Part>, Memory>
        requires kept { 0 < k → IsSome (kept_at self.now.cuts k) }
        requires opening { J.opening ≡ Some (object.now, opening.now) }
        requires opens { O.opens object.now opening.now }
        ensures cut { IfOk result (λ parts. IsCutOf O.meaning O.good O.count J.opening
            self.now.pass.entries k parts.items) }
    {
        if k == 0 {
            return copy_parts(alloc, object, opening);
        }
        self.points.copy(alloc, object, k)
    }

    // Keeps a cut, where there is memory. Where there are as many as may be, another one is let go first.
    pub fn keep(&mut self, k: u32, parts: Vec<O::Part>)
        requires within { k ≤ length self.old.pass.entries }
        requires cut { IsCutOf O.meaning O.good O.count J.opening self.old.pass.entries k
            parts.items }
    {
        self.points.make_room();
        match self.points.keep(k, parts) {
            Ok(()) => {}
            Err(Memory) => {}
        }
    }

    // Gives the pass of the last station, which has no entry. The cuts are let go.
    pub fn into_pass(self) -> Pass<O, J>
        ensures last { result.number + 1 ≡ J.stations }
        ensures own { of_station result.number result.entries ≡ [] }
    {
        self.points.into_pass()
    }
}

// The passes of a new journal but for that of its last station, and that one by itself.
pub fn without_last<O: PartObject, J: Naming<O, O::Part>>(
    passes: Vec<Pass<O, J>>,
) -> (Vec<Pass<O, J>>, Pass<O, J>)
    requires fresh { AreFresh J.opening J.stations passes.items }
    requires some { 0 < J.stations }
    ensures fewer { AreFresh J.opening (J.stations - 1) result.0.items }
    ensures last { result.1.number + 1 ≡ J.stations }
    ensures none { result.1.entries ≡ [] }
{
    let mut passes = passes;
    match passes.pop() {
        Some(last) => (passes, last),
        None => unreachable!(),
    }
}

// Copies of the entries from one point up to another, or how many there are where they are fewer.
pub fn entries_between<O: PartObject, J: Naming<O, O::Part>>(
    alloc: Global,
    turn: &Turn<'_, O, J>,
    object: &O,
    count: u32,
    from: u32,
    n: u32,
) -> Result<Vec<Entry<O::Call>>, CutFault>
    requires count { count ≡ length turn.now.journal.entries }
    requires from { from ≤ n }
    ensures ok { IfOk result (λ v. v.items ≡ take (n - from) (drop from turn.now.journal.entries)) }
    ensures within { OnOk result (n ≤ length turn.now.journal.entries) }
    ensures fault { IfErr result (λ f. SaysNoPoint f n (length turn.now.journal.entries)) }
{
    if n > count {
        return Err(CutFault::NoPoint(count));
    }
    turn.entries(alloc, object, from, n - from)
}

// The next point after one at which a cut is kept on the way to `n`, but at most `n`.
pub fn next_kept(at: u32, n: u32) -> u32
    requires { at < n }
    ensures further { at < result }
    ensures within { result ≤ n }
{
    let left = KEPT_EVERY - at % KEPT_EVERY;
    if left < n - at { at + left } else { n }
}
