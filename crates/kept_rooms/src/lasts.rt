// The greatest number of each station so far.
ghost use Rattle.std.specs.Prelude.{◌≡◌, ◌<◌, [], slice_set};
ghost use Rattle.edit_calls.specs.declared.asks.Call.{Call};
ghost use Rattle.take_back.specs.declared.step.Step.{Step};
ghost use Rattle.kept_rooms.specs.Records.{AreLasts, last_in};

use std::marker::Model;

/// How many stations there are at most.
const STATIONS: usize = 16;

/// The greatest number of each station, 0 before its first. To contracts it is the list of these
/// numbers.
#[derive(Drop)]
pub struct Lasts {
    numbers: [u32; 16],
}

impl Model for Lasts {
    ghost use Rattle.std.specs.Prelude.{◌≡◌, List, ℕ, length};

    ghost Value = { List ℕ };

    ghost view = { λ l. l.numbers };

    ghost invariant = { λ l. length l.numbers ≡ 16 };
}

impl Lasts {
    /// Before the first entry.
    pub fn new() -> Lasts
        ensures { AreLasts {C = Step Call} [] result }
    {
        Lasts {
            numbers: [0; STATIONS],
        }
    }

    /// The greatest number of a station.
    pub fn of(&self, station: u32) -> u32
        requires { station < 16 }
        ensures { result ≡ last_in self.now station }
    {
        self.numbers[station as usize]
    }

    /// A station has a number more, which is greater than those before.
    pub fn note(&mut self, station: u32, number: u32)
        requires { station < 16 }
        ensures { self.new ≡ slice_set self.old station number }
    {
        self.numbers[station as usize] = number;
    }
}
