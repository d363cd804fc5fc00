// A walk along a history: what its entries come to, point after point.
ghost use Rattle.std.specs.Prelude.{◌≡◌, ◌<◌, ◌≤◌, ◌+◌, List, Some, IfErr, IfOk, OnErr, OnOk, length};
ghost use Rattle.room_core.specs.History.{NumbersRise, answer_in, most_entries};
ghost use Rattle.room_core.specs.Parts.{AreGood, numbers};
ghost use Rattle.room_core.specs.Whole.{whole};
ghost use Rattle.cut_mirror.specs.declared.walk.WalkFault.TheVariants.{Memory as NoMemory};
ghost use Rattle.cut_mirror.specs.Foretelling.{Foretells};
ghost use Rattle.cut_mirror.specs.Walks.{IsAlong, IsSeen, IsWalk, StopsWalk, seen_by};

use crate::calls::{answer, apply};
use room_core::{Entry, Fault, Memory, PartObject};
use std::alloc::{AllocError, Global};
use std::marker::Model;

/// Why a walk goes no further.
#[derive(Clone, Copy, Debug, PartialEq, Eq)]
pub enum WalkFault {
    /// The entry at this place does not apply.
    Refused(u32),
    /// There was no memory for the parts.
    Memory,
}

impl From<Memory> for WalkFault {
    ghost from_gives = { λ _ e. e ≡ NoMemory };

    fn from(_: Memory) -> Self {
        WalkFault::Memory
    }
}

impl From<AllocError> for WalkFault {
    ghost from_gives = { λ _ e. e ≡ NoMemory };

    fn from(_: AllocError) -> Self {
        WalkFault::Memory
    }
}

// Equal parts, in their order.
fn copy_all<O: PartObject>(
    alloc: Global,
    object: &O,
    parts: &[O::Part],
) -> Result<Vec<O::Part>, Memory>
    ensures { IfOk result (λ copies. copies.items ≡ parts.now) }
{
    let mut copies = Vec::new(alloc);
    for part in parts {
        copies.push(object.copy_part(alloc, part)?)?;
    }
    Ok(copies)
}

/// A walk along a history. Contracts see its object, the parts that it began with, all entries, and the point where it
/// stands with the parts there.
#[derive(Drop)]
pub struct Walk<'a, O: PartObject> {
    object: &'a O,
    opening: &'a [O::Part],
    entries: &'a [Entry<O::Call>],
    point: u32,
    parts: Vec<O::Part>,
}

impl<'a, O: PartObject> Model for Walk<'a, O> {
    ghost use Rattle.room_core.specs.Parts.{AreGood, numbers};
    ghost use Rattle.cut_mirror.specs.Walks.{IsWalk, Walked};

    ghost Value = { Walked O O.Part O.Call };

    ghost view = { λ w. record {
      object = w.object.now;
      opening = w.opening.now;
      entries = w.entries.now;
      point = w.point;
      parts = w.parts.items;
    } };

    ghost invariant = { λ w. AreGood (O.good w.object.now) (numbers 0 (O.count w.object.now))
        w.parts.items
        × IsWalk O.meaning O.opens (record {
          object = w.object.now;
          opening = w.opening.now;
          entries = w.entries.now;
          point = w.point;
          parts = w.parts.items;
        }) };
}

impl<'a, O: PartObject> Walk<'a, O> {
    /// A walk that stands before the first entry.
    pub fn begin(
        alloc: Global,
        object: &'a O,
        opening: &'a [O::Part],
        entries: &'a [Entry<O::Call>],
    ) -> Result<Walk<'a, O>, Memory>
        requires opens { O.opens object.now opening.now }
        requires few { length entries.now ≤ most_entries }
        requires rise { NumbersRise entries.now }
        ensures { IfOk result (λ walk. walk ≡ record {
          object = object.now;
          opening = opening.now;
          entries = entries.now;
          point = 0;
          parts = opening.now;
        }) }
    {
        Ok(Walk {
            object,
            opening,
            entries,
            point: 0,
            parts: copy_all(alloc, object, opening)?,
        })
    }

    /// Where it stands: so many entries are done.
    pub fn point(&self) -> u32
        ensures point { result ≡ self.now.point }
        ensures walk { IsWalk O.meaning O.opens self.now }
    {
        self.point
    }

    /// What the entries before its point come to.
    pub fn parts(&self) -> &[O::Part]
        ensures parts { result.now ≡ self.now.parts }
        ensures walk { IsWalk O.meaning O.opens self.now }
    {
        &self.parts
    }

    // Does the entry at the point. Where it does not apply, or there is no memory, nothing has changed.
    fn step(&mut self, alloc: Global) -> Result<(), WalkFault>
        requires { self.old.point < length self.old.entries }
        ensures along { IsAlong self.old self.new }
        ensures ok { OnOk result (self.new.point ≡ self.old.point + 1) }
        ensures err { OnErr result (self.new ≡ self.old) }
        ensures fault { IfErr result (λ fault. StopsWalk O.meaning self.old fault) }
    {
        let place = self.point;
        let call = &self.entries[place as usize].call;
        match apply(alloc, self.object, &mut self.parts, call) {
            Ok(_) => {}
            Err(Fault::Refused(_)) => return Err(WalkFault::Refused(place)),
            Err(Fault::Memory) => return Err(WalkFault::Memory),
        }
        self.point = place + 1;
        Ok(())
    }

    // Begins again, before the first entry.
    fn begin_again(&mut self, alloc: Global) -> Result<(), Memory>
        ensures along { IsAlong self.old self.new }
        ensures ok { OnOk result (self.new.point ≡ 0) }
    {
        self.parts = copy_all(alloc, self.object, self.opening)?;
        self.point = 0;
        Ok(())
    }

    // Goes on to a point that is not before this one.
    fn go_on_to(&mut self, alloc: Global, n: u32) -> Result<(), WalkFault>
        requires on { self.old.point ≤ n }
        requires within { n ≤ length self.old.entries }
        ensures along { IsAlong self.old self.new }
        ensures ok { OnOk result (self.new.point ≡ n) }
        ensures fault { IfErr result (λ fault. StopsWalk O.meaning self.old fault) }
    {
        for _ in self.point..n {
            self.step(alloc)?;
        }
        Ok(())
    }

    /// Goes to a point: on, where it is not before this one, and else from the beginning again. An entry that does not apply
    /// is the first such one, and stands before the point.
    pub fn go_to(&mut self, alloc: Global, n: u32) -> Result<(), WalkFault>
        requires { n ≤ length self.old.entries }
        ensures along { IsAlong self.old self.new }
        ensures ok { OnOk result (self.new.point ≡ n) }
        ensures fault { IfErr result (λ fault. StopsWalk O.meaning self.old fault) }
    {
        if n < self.point {
            self.begin_again(alloc)?;
        }
        self.go_on_to(alloc, n)
    }

    /// What a call would be answered here. Nothing changes.
    pub fn answer(&self, alloc: Global, call: &O::Call) -> Result<O::Done, Fault<O::Refusal>>
        ensures tells { Foretells (answer_in (whole (O.meaning self.now.object) self.now.parts
            call.now)) result }
        ensures walk { IsWalk O.meaning O.opens self.now }
    {
        answer(alloc, self.object, &self.parts, call)
    }

    /// What a question is answered here.
    pub fn see(&self, alloc: Global, ask: &O::Ask) -> Result<O::Seen, Fault<O::AskRefusal>>
        ensures seen { IsSeen (seen_by (O.asked self.now.object ask.now) (O.seen self.now.object)
            self.now.parts ask.now) result }
        ensures walk { IsWalk O.meaning O.opens self.now }
    {
        let part = match self.object.ask_part(ask) {
            Ok(part) => part,
            Err(refusal) => return Err(Fault::Refused(refusal)),
        };
        self.object.see(alloc, &self.parts[part as usize], ask)
    }
}
