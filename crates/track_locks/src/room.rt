// Room for the homes of the parts that are to be held. Its memory is taken before the first lock, and nothing in it takes
// more, so that no lock is held where there is no memory.
ghost use Rattle.std.specs.Prelude.{◌≡◌, ◌<◌, ◌+◌, ◌++◌, [], ◌∷◌, IfOk, None, Some, vec_len, vec_capacity};

use edit_journal::{Naming, PartSeat};
use room_core::{Memory, PartObject};
use std::alloc::Global;

/// A part that is held, with its number, its version and its seat.
#[derive(Drop)]
pub struct HeldHome<O: PartObject, J: Naming<O, O::Part>> {
    pub(crate) number: u32,
    pub(crate) part: O::Part,
    // How many entries name the part.
    pub(crate) version: u32,
    // None while it is at the journal.
    pub(crate) seat: Option<PartSeat<O, J>>,
}

impl<O: PartObject, J: Naming<O, O::Part>> HeldHome<O, J> {
    /// Has another part in place of its own, as after an entry that names it.
    pub fn renew(&mut self, part: O::Part)
        requires { self.old.version < 4294967295 }
        ensures { self.new ≡ record self.old { part = part; version = self.old.version + 1 } }
    {
        self.part = part;
        self.version += 1;
    }

    /// Gives its seat up.
    pub fn take_seat(&mut self) -> Option<PartSeat<O, J>>
        ensures seat { result ≡ self.old.seat }
        ensures rest { self.new ≡ record self.old { seat = None } }
    {
        self.seat.take()
    }

    /// Gets a seat.
    pub fn put_seat(&mut self, seat: PartSeat<O, J>)
        ensures { self.new ≡ record self.old { seat = Some seat } }
    {
        self.seat = Some(seat);
    }
}

/// Room for homes, and those that are in it.
pub struct Room<O: PartObject, J: Naming<O, O::Part>> {
    homes: Vec<HeldHome<O, J>>,
}

/// Room for so many homes.
pub fn room_for<O: PartObject, J: Naming<O, O::Part>>(
    alloc: Global,
    count: usize,
) -> Result<Room<O, J>, Memory>
    ensures none { IfOk result (λ r. r.homes.items ≡ []) }
    ensures room { IfOk result (λ r. vec_capacity r.homes ≡ count) }
{
    let homes = Vec::with_capacity(alloc, count)?;
    Ok(Room { homes })
}

impl<O: PartObject, J: Naming<O, O::Part>> Room<O, J> {
    /// Puts a home in, after the others.
    pub fn put(&mut self, home: HeldHome<O, J>)
        requires { vec_len self.old.homes < vec_capacity self.old.homes }
        ensures more { self.new.homes.items ≡ self.old.homes.items ++ home ∷ [] }
        ensures room { vec_capacity self.new.homes ≡ vec_capacity self.old.homes }
    {
        self.homes.push_reserved(home);
    }

    /// The homes in it.
    pub fn into_homes(self) -> Vec<HeldHome<O, J>>
        ensures { result.items ≡ self.homes.items }
    {
        let Room { homes } = self;
        homes
    }
}
