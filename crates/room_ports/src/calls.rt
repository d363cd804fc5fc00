// Calls that are numbered from 1, some of which are to fail.
ghost use Rattle.std.specs.Prelude.{◌≡◌, ◌≤◌, ◌↔◌, Contains, IsTrue, IsErr, OnOk, OnErr};
ghost use Rattle.room_ports.specs.Calls.{no_calls, FailsNext, passed, failed};

use crate::Failed;
use std::marker::Model;

/// Numbers the calls of an object and counts those that failed.
#[derive(Drop)]
pub struct FailingCalls {
    failing: Vec<u32>,
    made: u64,
    faults: u64,
}

impl Model for FailingCalls {
    ghost use Rattle.room_ports.specs.Calls.{Calls};

    ghost Value = { Calls };

    ghost view = { λ c. record { failing = c.failing.items; made = c.made; faults = c.faults } };
}

impl FailingCalls {
    /// Before the first call. Calls are numbered from 1, and those whose numbers are in the list are to fail.
    pub fn new(failing: Vec<u32>) -> Self
        ensures { result ≡ no_calls failing.items }
    {
        FailingCalls {
            failing,
            made: 0,
            faults: 0,
        }
    }

    /// Numbers the next call, and fails, with a fault more, exactly where its number is listed.
    pub fn next(&mut self) -> Result<(), Failed>
        ensures fails { IsErr result ↔ FailsNext self.old }
        ensures ok { OnOk result (self.new ≡ passed self.old) }
        ensures err { OnErr result (self.new ≡ failed self.old) }
        ensures count { self.old.faults ≤ self.new.faults }
    {
        self.made = self.made.saturating_add(1);
        if is_listed(&self.failing, self.made) {
            self.faults = self.faults.saturating_add(1);
            return Err(Failed);
        }
        Ok(())
    }
}

// Whether a list of calls has this number.
fn is_listed(calls: &[u32], number: u64) -> bool
    ensures { IsTrue result ↔ Contains calls.now number }
{
    calls.iter().any(|call| u64::from(*call) == number)
}
