// A home, and where it stays while nobody has it.
ghost use Rattle.std.specs.Prelude.{◌≡◌};
ghost use Rattle.track_locks.specs.Homes.{IsHome};

use edit_journal::{Naming, PartSeat};
use room_core::PartObject;
use std::marker::{Model, PhantomData};
use std::sync::{Condvar, Mutex, Wait};

/// A part with its seat and its version, the number of entries that name it.
#[derive(Drop)]
pub struct Home<O: PartObject, J: Naming<O, O::Part>> {
    pub(crate) part: O::Part,
    // Knows the entries that the part is what they come to.
    pub(crate) seat: PartSeat<O, J>,
    // How many of these entries name the part.
    pub(crate) version: u32,
}

impl<O: PartObject, J: Naming<O, O::Part>> Model for Home<O, J> {
    ghost use Rattle.std.specs.Prelude.{◌≡◌};
    ghost use Rattle.track_locks.specs.Homes.{Homed, IsHome, IsGoodAt};

    ghost Value = { Homed O.Part O.Call };

    ghost view = { λ h. record {
      number = h.seat.number;
      part = h.part;
      version = h.version;
      entries = h.seat.entries;
    } };

    ghost invariant = { λ h. (h.seat.opening ≡ J.opening)
        × IsHome O.meaning O.opens J.opening h.seat.number h.part h.version h.seat.entries
        × IsGoodAt O.good J.opening h.seat.number h.part };
}

impl<O: PartObject, J: Naming<O, O::Part>> Home<O, J> {
    /// The number of its part.
    pub fn number(&self) -> u32
        ensures { result ≡ self.now.number }
    {
        self.seat.part()
    }
}

// The lock of the part with this number: a home, or none while it is taken. Contracts see the number.
#[derive(Drop)]
pub struct Place<O: PartObject, J: Naming<O, O::Part>> {
    number: u32,
    home: Mutex<Option<Home<O, J>>>,
    back: Condvar,
}

impl<O: PartObject, J: Naming<O, O::Part>> Model for Place<O, J> {
    ghost use Rattle.std.specs.Prelude.{ℕ};

    ghost Value = { ℕ };

    ghost view = { λ p. p.number };
}

impl<O: PartObject, J: Naming<O, O::Part>> Place<O, J> {
    // The lock of this home's part, with the home in it.
    pub fn new(home: Home<O, J>) -> Self
        ensures { result ≡ home.number }
    {
        Place {
            number: home.number(),
            home: Mutex::new(Some(home)),
            back: Condvar::new(),
        }
    }

    // Waits for the home with this number, and takes it out.
    pub fn take<R: Wait>(&self, rt: &R, number: u32) -> Home<O, J>
        ensures number { result.number ≡ number }
    {
        let mut guard = self.home.lock(rt);
        for _ in rt.forever() {
            match guard.take() {
                Some(home) => {
                    if home.number() == number {
                        return home;
                    }
                    *guard = Some(home);
                }
                None => {}
            }
            guard = self.back.wait(rt, guard);
        }
        unreachable!()
    }

    // Puts the home with its number in, and wakes one that waits. No clause says that it is found there again.
    pub fn give<R: Wait>(&self, rt: &R, home: Home<O, J>)
        requires { home.number ≡ self.now }
    {
        let mut guard = self.home.lock(rt);
        *guard = Some(home);
        self.back.notify_one();
    }
}
