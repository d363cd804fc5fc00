// Cuts that are kept of a journal's history.
ghost use Rattle.std.specs.Prelude.{◌≡◌, ◌==◌, ◌+◌, ◌<◌, ◌≤◌, ℕ, [], None, Some, IfNone, IfOk, IfSome, IsSome, IsSomeAnd, OnErr, OnOk, length, if◌then◌else◌};
ghost use Rattle.room_core.specs.Projection.{of_station};
ghost use Rattle.edit_journal.specs.declared.name.Name.TheVariants.{Station};
ghost use Rattle.edit_journal.specs.Seats.{Begins};
ghost use Rattle.edit_journal.specs.Turns.{gathered, given};
ghost use Rattle.history_points.specs.KeptCuts.{IsCutOf, kept_at, most_kept};

use crate::copy_parts;
use edit_journal::{Naming, Pass, Turn};
use room_core::{Memory, PartObject};
use std::alloc::Global;
use std::collections::BTreeMap;
use std::marker::Model;

/// The most cuts that are kept.
pub const MOST_KEPT: usize = 20;

/// Cuts of a journal's history, at most [`MOST_KEPT`], and a pass that knows this history, of a station that adds no
/// entry. Contracts see what the pass knows, and each cut with its point in the history, which counts entries.
#[derive(Drop)]
pub struct Points<O: PartObject, J: Naming<O, O::Part>> {
    pass: Option<Pass<O, J>>,
    cuts: BTreeMap<u32, Vec<O::Part>>,
}

impl<O: PartObject, J: Naming<O, O::Part>> Model for Points<O, J> {
    ghost use Rattle.std.specs.Prelude.{IsSome};
    ghost use Rattle.history_points.specs.KeptCuts.{AreKept, KeptCuts};
    ghost use Rattle.history_points.specs.KeptInside.{known_by};

    ghost Value = { KeptCuts O O.Part O.Call };

    ghost view = { λ p. record { pass = known_by p.pass; cuts = p.cuts.entries } };

    ghost invariant = { λ p. IsSome p.pass × AreKept O.meaning O.good O.count J.opening
        (record { pass = known_by p.pass; cuts = p.cuts.entries }) };
}

impl<O: PartObject, J: Naming<O, O::Part>> Points<O, J> {
    /// No cut, with the pass of a station that has no entry and is to add none.
    pub fn new(alloc: Global, pass: Pass<O, J>) -> Points<O, J>
        requires own { of_station pass.number pass.entries ≡ [] }
        ensures pass { result.pass ≡ pass }
        ensures cuts { result.cuts ≡ [] }
    {
        Points {
            pass: Some(pass),
            cuts: BTreeMap::new(alloc),
        }
    }

    /// Shows the pass all entries that there are, and answers how many. What it knew begins them.
    pub fn meet(&mut self, turn: &mut Turn<'_, O, J>) -> u32
        requires tokens { turn.old.tokens < 4294967295 }
        ensures count { result ≡ length turn.old.journal.entries }
        ensures pass { (self.new.pass.number ≡ self.old.pass.number)
            × (self.new.pass.opening ≡ self.old.pass.opening)
            × (self.new.pass.entries ≡ turn.old.journal.entries) }
        ensures cuts { self.new.cuts ≡ self.old.cuts }
        ensures front { Begins turn.old.journal.entries self.old.pass.entries }
        ensures turn { turn.new.journal ≡ given (Station self.old.pass.number) (gathered
            (Station self.old.pass.number) self.old.pass.opening self.old.pass.entries
            turn.old.journal) }
        ensures tokens { (turn.new.tokens ≡ turn.old.tokens) × (turn.new.room ≡ turn.old.room) }
    {
        let (pass, count) = met(turn, taken(&mut self.pass));
        self.pass = Some(pass);
        count
    }

    /// The greatest point up to this one at which a cut is kept, or `None` where none is.
    pub fn nearest(&self, n: u32) -> Option<u32>
        ensures kept { IfSome result (λ k. (k ≤ n) × IsSome (kept_at self.now.cuts k)) }
        ensures point { IfSome result (λ k. k ≤ length self.now.pass.entries) }
        ensures greatest { IfSome result (λ k. (j : ℕ) → j ≤ n → IsSome (kept_at self.now.cuts j)
            → j ≤ k) }
        ensures none { IfNone result ((j : ℕ) → j ≤ n → kept_at self.now.cuts j ≡ None) }
    {
        match self.cuts.range(..=n).next_back() {
            Some((k, _)) => Some(*k),
            None => None,
        }
    }

    /// A copy of the cut that is kept at a point.
    pub fn copy(&self, alloc: Global, object: &O, k: u32) -> Result<Vec<O::Part>, Memory>
        requires kept { IsSome (kept_at self.now.cuts k) }
        ensures copy { IfOk result (λ copy. IsSomeAnd (kept_at self.now.cuts k)
            (λ parts. copy.items ≡ parts.items)) }
        ensures cut { IfOk result (λ copy. IsCutOf O.meaning O.good O.count J.opening
            self.now.pass.entries k copy.items) }
    {
        match self.cuts.get(&k) {
            Some(parts) => copy_parts(alloc, object, parts),
            None => unreachable!(),
        }
    }

    /// Lets a cut go where there are as many as may be: the one that is missed least, since its neighbours are nearest to
    /// each other. The last one stays. So cuts that are kept as a journal grows, in equal steps, stand at most a tenth of
    /// it apart, or one step; in a full journal no more than 8,192 entries.
    pub fn make_room(&mut self)
        ensures room { length self.new.cuts < most_kept }
        ensures one { length self.old.cuts ≤ length self.new.cuts + 1 }
        ensures fewer { (n : ℕ) → IsSome (kept_at self.new.cuts n) → kept_at self.new.cuts n
            ≡ kept_at self.old.cuts n }
        ensures pass { self.new.pass ≡ self.old.pass }
    {
        if self.cuts.len() < MOST_KEPT {
            return;
        }
        let point = least_missed(&self.cuts);
        let_one_go(&mut self.cuts, point);
    }

    /// Keeps the cut at a point of the history that the pass knows.
    pub fn keep(&mut self, k: u32, parts: Vec<O::Part>) -> Result<(), Memory>
        requires room { length self.old.cuts < most_kept }
        requires within { k ≤ length self.old.pass.entries }
        requires cut { IsCutOf O.meaning O.good O.count J.opening self.old.pass.entries k
            parts.items }
        ensures ok { OnOk result ((n : ℕ) → kept_at self.new.cuts n
            ≡ (if n == k then Some parts else kept_at self.old.cuts n)) }
        ensures pass { self.new.pass ≡ self.old.pass }
        ensures err { OnErr result (self.new ≡ self.old) }
    {
        self.cuts.insert(k, parts)?;
        Ok(())
    }

    /// Gives the pass, whose station has no entry. The cuts are let go.
    pub fn into_pass(self) -> Pass<O, J>
        ensures pass { result ≡ self.pass }
        ensures own { of_station self.pass.number self.pass.entries ≡ [] }
    {
        let Points { pass, cuts: _ } = self;
        match pass {
            Some(pass) => pass,
            None => unreachable!(),
        }
    }
}

// The pass, until it is put back.
fn taken<O: PartObject, J: Naming<O, O::Part>>(pass: &mut Option<Pass<O, J>>) -> Pass<O, J>
    requires { IsSome pass.old }
    ensures { pass.old ≡ Some result }
{
    match pass.take() {
        Some(pass) => pass,
        None => unreachable!(),
    }
}

// A pass that was at the journal, and how many entries there are, all of which it knows then.
fn met<O: PartObject, J: Naming<O, O::Part>>(
    turn: &mut Turn<'_, O, J>,
    pass: Pass<O, J>,
) -> (Pass<O, J>, u32)
    requires tokens { turn.old.tokens < 4294967295 }
    ensures count { result.1 ≡ length turn.old.journal.entries }
    ensures pass { (result.0.number ≡ pass.number) × (result.0.opening ≡ pass.opening)
        × (result.0.entries ≡ turn.old.journal.entries) }
    ensures front { Begins turn.old.journal.entries pass.entries }
    ensures own { of_station pass.number turn.old.journal.entries
        ≡ of_station pass.number pass.entries }
    ensures turn { turn.new.journal ≡ given (Station pass.number)
        (gathered (Station pass.number) pass.opening pass.entries turn.old.journal) }
    ensures tokens { (turn.new.tokens ≡ turn.old.tokens) × (turn.new.room ≡ turn.old.room) }
{
    let station = pass.station();
    turn.gather_pass(pass);
    let count = turn.look();
    (turn.give_pass(station), count)
}

// The point of a cut whose neighbours are nearest to each other, where there are two cuts at least; the neighbour before
// the first is the opening.
fn least_missed<P>(cuts: &BTreeMap<u32, P>) -> u32 {
    let mut missed = 0;
    let mut nearest = u32::MAX;
    let mut before = 0;
    let mut at = 0;
    for (next, _) in cuts {
        let apart = next.saturating_sub(before);
        if at > 0 && apart < nearest {
            nearest = apart;
            missed = at;
        }
        before = at;
        at = *next;
    }
    missed
}

// Lets one cut go: the one at a point or, where none is there, the first.
fn let_one_go<P: Drop>(cuts: &mut BTreeMap<u32, Vec<P>>, point: u32)
    requires some { 0 < length cuts.old.entries }
    ensures one { length cuts.new.entries + 1 ≡ length cuts.old.entries }
    ensures left { (n : ℕ) → IsSome (kept_at cuts.new.entries n) → kept_at cuts.new.entries n
        ≡ kept_at cuts.old.entries n }
{
    match cuts.remove(&point) {
        Some(_) => return,
        None => {}
    }
    let _ = cuts.pop_first();
}
