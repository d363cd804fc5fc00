// Entries of the journal, for those who follow it.
ghost use Rattle.cut_room.specs.Rooms.{IsExcerpt};

use super::Room;
use crate::{CutFault, Excerpt};
use edit_journal::{Naming, Pass};
use room_core::PartObject;
use std::alloc::Global;
use std::sync::Wait;

impl<O: PartObject + Drop, J: Naming<O, O::Part>> Room<O, J> {
    /// The journal's entries from `from` on: all of them or, where there are more than `most`, the first `most` of them.
    /// They are copied while the journal's lock is held.
    pub fn entries<R: Wait>(
        &self,
        rt: &R,
        alloc: Global,
        pass: Pass<O, J>,
        from: u32,
        most: u32,
    ) -> (Pass<O, J>, Result<Excerpt<O::Call>, CutFault>)
        ensures { IsExcerpt (O.meaning self.now.object) self.now.parts from most
            pass result.0 result.1 }
    {
        let station = pass.station();
        let mut turn = self.journal.lock(rt);
        turn.gather_pass(pass);
        let length = turn.look();
        let copies = turn.entries(alloc, &self.object, from, most);
        let pass = turn.give_pass(station);
        turn.release();
        match copies {
            Ok(entries) => (pass, Ok(Excerpt { entries, length })),
            Err(fault) => (pass, Err(fault)),
        }
    }
}
