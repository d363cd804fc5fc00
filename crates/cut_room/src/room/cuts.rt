// Cuts of the past: what the parts were after some of the journal's entries.
ghost use Rattle.std.specs.Prelude.{◌≡◌, ◌-◌, ◌≤◌, Some, IfErr, IfOk, IsSome, drop, length, take};
ghost use Rattle.room_core.specs.History.{IsLegal, replay};
ghost use Rattle.room_core.specs.Parts.{AreGood, numbers};
ghost use Rattle.room_core.specs.Whole.{whole};
ghost use Rattle.edit_journal.specs.declared.log.CopyFault.TheVariants.{Memory as NoMemory};
ghost use Rattle.edit_journal.specs.Faults.{SaysNoPoint};
ghost use Rattle.history_points.specs.KeptCuts.{IsCutOf};
ghost use Rattle.history_points.specs.Reached.{IsReached};
ghost use Rattle.cut_room.specs.Rooms.{IsAtPoint, IsCut, Stays};

use super::Room;
use crate::CutFault;
use crate::keeping::{Begun, Kept, entries_between, next_kept};
use edit_journal::{Naming, Pass};
use history_points::{ReplayFault, copy_parts, replay};
use room_core::{Entry, Memory, PartObject};
use std::alloc::Global;
use std::sync::Wait;

impl<O: PartObject + Drop, J: Naming<O, O::Part>> Room<O, J> {
    /// The parts after the first `n` entries. Where these are all that there are, the room's own parts are copied, all of
    /// which are held meanwhile. Else the entries after the nearest cut that is kept are done for it, and no lock is held
    /// meanwhile. This cut is kept, and others on the way to it; where there is no memory to keep one, no clause says so.
    pub fn cut_at<R: Wait>(
        &self,
        rt: &R,
        alloc: Global,
        pass: Pass<O, J>,
        n: u32,
    ) -> (Pass<O, J>, Result<Vec<O::Part>, CutFault>)
        ensures cut { IsCut (O.meaning self.now.object) self.now.parts n pass result.0 result.1 }
        ensures good { IfOk result.1 (λ parts. AreGood (O.good self.now.object) (numbers 0
            (O.count self.now.object)) parts.items) }
    {
        let _ = &self.object;
        let (pass, standing) = self.standing_at(rt, alloc, pass, n);
        match standing {
            Some(parts) => (pass, Ok(parts)),
            None => self.cut_by_replay(rt, alloc, pass, n),
        }
    }

    // The same by the entries after the nearest cut that is kept.
    fn cut_by_replay<R: Wait>(
        &self,
        rt: &R,
        alloc: Global,
        pass: Pass<O, J>,
        n: u32,
    ) -> (Pass<O, J>, Result<Vec<O::Part>, CutFault>)
        ensures cut { IsCut (O.meaning self.now.object) self.now.parts n pass result.0 result.1 }
        ensures good { IfOk result.1 (λ parts. AreGood (O.good self.now.object) (numbers 0
            (O.count self.now.object)) parts.items) }
    {
        let (pass, begun) = self.begun(rt, alloc, pass, n);
        match begun {
            Ok(begun) => {
                let Begun {
                    from,
                    parts,
                    entries,
                } = begun;
                self.gone_on(rt, alloc, pass, parts, &entries, from, n)
            }
            Err(fault) => (pass, Err(fault)),
        }
    }

    // A copy of the cut at the nearest point up to `n`, and of the entries from there up to `n`.
    fn begun<R: Wait>(
        &self,
        rt: &R,
        alloc: Global,
        pass: Pass<O, J>,
        n: u32,
    ) -> (Pass<O, J>, Result<Begun<O>, CutFault>)
        ensures at { IsAtPoint (O.meaning self.now.object) self.now.parts pass result.0
            (length result.0.entries) }
        ensures within { IfOk result.1 (λ b. (b.from ≤ n) × (n ≤ length result.0.entries)) }
        ensures entries { IfOk result.1 (λ b. b.entries.items
            ≡ take (n - b.from) (drop b.from result.0.entries)) }
        ensures cut { IfOk result.1 (λ b. IsCutOf O.meaning O.good O.count J.opening
            result.0.entries b.from b.parts.items) }
        ensures fault { IfErr result.1 (λ f. SaysNoPoint f n (length result.0.entries)) }
    {
        let mut kept = self.kept.lock(rt);
        self.begun_by(rt, alloc, &mut kept, pass, n)
    }

    // Begins a cut, as `begun` does, by what is kept, whose lock is held. The journal's lock is held while entries are
    // copied, and no longer.
    fn begun_by<R: Wait>(
        &self,
        rt: &R,
        alloc: Global,
        kept: &mut Kept<O, J>,
        pass: Pass<O, J>,
        n: u32,
    ) -> (Pass<O, J>, Result<Begun<O>, CutFault>)
        ensures at { IsAtPoint (O.meaning self.now.object) self.now.parts pass result.0
            (length result.0.entries) }
        ensures within { IfOk result.1 (λ b. (b.from ≤ n) × (n ≤ length result.0.entries)) }
        ensures entries { IfOk result.1 (λ b. b.entries.items
            ≡ take (n - b.from) (drop b.from result.0.entries)) }
        ensures cut { IfOk result.1 (λ b. IsCutOf O.meaning O.good O.count J.opening
            result.0.entries b.from b.parts.items) }
        ensures fault { IfErr result.1 (λ f. SaysNoPoint f n (length result.0.entries)) }
    {
        let mut turn = self.journal.lock(rt);
        let (pass, count) = kept.meet(&mut turn, pass);
        let from = kept.nearest(n);
        let entries = entries_between(alloc, &turn, &self.object, count, from, n);
        turn.release();
        let entries = match entries {
            Ok(entries) => entries,
            Err(fault) => return (pass, Err(fault)),
        };
        match kept.copy(alloc, &self.object, &self.opening, from) {
            Ok(parts) => {
                let begun = Begun {
                    from,
                    parts,
                    entries,
                };
                (pass, Ok(begun))
            }
            Err(Memory) => (pass, Err(CutFault::Memory)),
        }
    }

    // The cut at `n`, from the one at `from` on, by the entries between them. It is kept, and others on the way.
    fn gone_on<R: Wait>(
        &self,
        rt: &R,
        alloc: Global,
        pass: Pass<O, J>,
        parts: Vec<O::Part>,
        entries: &[Entry<O::Call>],
        from: u32,
        n: u32,
    ) -> (Pass<O, J>, Result<Vec<O::Part>, CutFault>)
        requires legal { IsLegal (whole (O.meaning self.now.object)) self.now.parts pass.entries }
        requires within { (from ≤ n) × (n ≤ length pass.entries) }
        requires entries { entries.now ≡ take (n - from) (drop from pass.entries) }
        requires cut { IsCutOf O.meaning O.good O.count J.opening pass.entries from parts.items }
        ensures stays { Stays (O.meaning self.now.object) self.now.parts pass result.0 }
        ensures parts { IfOk result.1 (λ ps. replay (whole (O.meaning self.now.object))
            self.now.parts (take n pass.entries) ≡ Some ps.items) }
        ensures good { IfOk result.1 (λ ps. AreGood (O.good self.now.object) (numbers 0
            (O.count self.now.object)) ps.items) }
        ensures fault { IfErr result.1 (λ f. f ≡ NoMemory) }
    {
        let _ = &self.object;
        let mut pass = pass;
        let mut parts = parts;
        let mut at = from;
        while at < n {
            let next = next_kept(at, n);
            let (_, rest) = entries.split_at((at - from) as usize);
            parts = match self.replayed(alloc, &parts, rest, next - at) {
                Ok(parts) => parts,
                Err(fault) => return (pass, Err(fault)),
            };
            pass = self.keep(rt, alloc, pass, next, &parts);
            at = next;
        }
        (pass, Ok(parts))
    }

    // What the first `n` of entries that apply come to, on what others of the journal came to.
    fn replayed(
        &self,
        alloc: Global,
        from: &[O::Part],
        entries: &[Entry<O::Call>],
        n: u32,
    ) -> Result<Vec<O::Part>, CutFault>
        requires from { IsReached (O.meaning self.now.object) (O.opens self.now.object) n from.now }
        requires good { AreGood (O.good self.now.object) (numbers 0 (O.count self.now.object))
            from.now }
        requires within { n ≤ length entries.now }
        requires applies { IsSome (replay (whole (O.meaning self.now.object)) from.now
            (take n entries.now)) }
        ensures good { IfOk result (λ parts. AreGood (O.good self.now.object) (numbers 0
            (O.count self.now.object)) parts.items) }
        ensures parts { IfOk result (λ ps. replay (whole (O.meaning self.now.object)) from.now
            (take n entries.now) ≡ Some ps.items) }
        ensures fault { IfErr result (λ f. f ≡ NoMemory) }
    {
        match replay(alloc, &self.object, from, entries, n) {
            Ok(parts) => Ok(parts),
            Err(ReplayFault::Refused(_)) => unreachable!(),
            Err(ReplayFault::Memory) => Err(CutFault::Memory),
        }
    }

    // Keeps a copy of the cut at a point that the pass knows, where there is memory; the opening is there without. The lock
    // of what is kept is taken for that alone; the pass shows its pass that the cut is one of the journal's history.
    fn keep<R: Wait>(
        &self,
        rt: &R,
        alloc: Global,
        pass: Pass<O, J>,
        point: u32,
        parts: &[O::Part],
    ) -> Pass<O, J>
        requires within { point ≤ length pass.entries }
        requires cut { IsCutOf O.meaning O.good O.count J.opening pass.entries point parts.now }
        ensures stays { Stays (O.meaning self.now.object) self.now.parts pass result }
    {
        if point == 0 {
            return pass;
        }
        match copy_parts(alloc, &self.object, parts) {
            Ok(copy) => self.keep_own(rt, pass, point, copy),
            Err(Memory) => pass,
        }
    }

    // Keeps these parts themselves.
    pub(super) fn keep_own<R: Wait>(
        &self,
        rt: &R,
        pass: Pass<O, J>,
        point: u32,
        parts: Vec<O::Part>,
    ) -> Pass<O, J>
        requires within { point ≤ length pass.entries }
        requires cut { IsCutOf O.meaning O.good O.count J.opening pass.entries point parts.items }
        ensures stays { Stays (O.meaning self.now.object) self.now.parts pass result }
    {
        let mut kept = self.kept.lock(rt);
        self.keep_by(rt, &mut kept, pass, point, parts)
    }

    // Keeps a cut, as `keep` does, in what is kept, whose lock is held.
    fn keep_by<R: Wait>(
        &self,
        rt: &R,
        kept: &mut Kept<O, J>,
        pass: Pass<O, J>,
        point: u32,
        parts: Vec<O::Part>,
    ) -> Pass<O, J>
        requires within { point ≤ length pass.entries }
        requires cut { IsCutOf O.meaning O.good O.count J.opening pass.entries point parts.items }
        ensures stays { Stays (O.meaning self.now.object) self.now.parts pass result }
    {
        let mut turn = self.journal.lock(rt);
        let (pass, _) = kept.meet(&mut turn, pass);
        turn.release();
        kept.keep(point, parts);
        pass
    }
}
