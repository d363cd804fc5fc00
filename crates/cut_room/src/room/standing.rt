// The cut as it stands: all parts of a room at one point of its journal.
ghost use Rattle.std.specs.Prelude.{◌≡◌, ◌≤◌, IfOk, IfSome, length};
ghost use Rattle.room_core.specs.Parts.{numbers};
ghost use Rattle.room_core.specs.Whole.{set_of};
ghost use Rattle.history_points.specs.KeptCuts.{IsCutOf};
ghost use Rattle.cut_room.specs.Rooms.{Stays};

use super::Room;
use crate::keeping::Standing;
use edit_journal::{Naming, Pass};
use room_core::{Memory, PartObject};
use std::alloc::Global;
use std::sync::Wait;

impl<O: PartObject + Drop, J: Naming<O, O::Part>> Room<O, J> {
    /// Keeps the cut as it stands, for those who ask for it, or for a later one, once the journal has grown. Where there is
    /// no memory it is not kept.
    pub fn keep_cut<R: Wait>(&self, rt: &R, alloc: Global, pass: Pass<O, J>) -> Pass<O, J>
        ensures stays { Stays (O.meaning self.now.object) self.now.parts pass result }
    {
        let (pass, standing) = self.standing(rt, alloc, pass);
        match standing {
            Ok(Standing { point, parts }) => self.keep_own(rt, pass, point, parts),
            Err(Memory) => pass,
        }
    }

    // The cut as it stands, where that is the one at `n`. The parts are not held where the journal had another length before.
    pub(super) fn standing_at<R: Wait>(
        &self,
        rt: &R,
        alloc: Global,
        pass: Pass<O, J>,
        n: u32,
    ) -> (Pass<O, J>, Option<Vec<O::Part>>)
        ensures stays { Stays (O.meaning self.now.object) self.now.parts pass result.0 }
        ensures within { IfSome result.1 (λ _. n ≤ length result.0.entries) }
        ensures cut { IfSome result.1 (λ ps. IsCutOf O.meaning O.good O.count J.opening
            result.0.entries n ps.items) }
    {
        let (pass, point) = self.point(rt, pass);
        if point != n {
            return (pass, None);
        }
        let (pass, standing) = self.standing(rt, alloc, pass);
        match standing {
            Ok(Standing { point, parts }) => {
                if point == n {
                    (pass, Some(parts))
                } else {
                    (pass, None)
                }
            }
            Err(Memory) => (pass, None),
        }
    }

    // Copies of all parts, and how many entries there are. All are held meanwhile, so no entry is added.
    fn standing<R: Wait>(
        &self,
        rt: &R,
        alloc: Global,
        pass: Pass<O, J>,
    ) -> (Pass<O, J>, Result<Standing<O>, Memory>)
        ensures stays { Stays (O.meaning self.now.object) self.now.parts pass result.0 }
        ensures point { IfOk result.1 (λ s. s.point ≡ length result.0.entries) }
        ensures cut { IfOk result.1 (λ s. IsCutOf O.meaning O.good O.count J.opening
            result.0.entries s.point s.parts.items) }
    {
        let set = set_of_all(self.object.parts());
        let mut held = match self.tracks.hold(rt, alloc, set) {
            Ok(held) => held,
            Err(Memory) => return (pass, Err(Memory)),
        };
        let (pass, point) = self.look(rt, &mut held, pass);
        let copies = held.copy(alloc, &self.object);
        held.release(rt);
        match copies {
            Ok(parts) => (pass, Ok(Standing { point, parts })),
            Err(Memory) => (pass, Err(Memory)),
        }
    }
}

// The set of so many parts, bit n for the part n.
fn set_of_all(count: u32) -> u32
    requires { count ≤ 32 }
    ensures { result ≡ set_of (numbers 0 count) }
{
    if count < 32 {
        (1 << count) - 1
    } else {
        u32::MAX
    }
}
