// A namer that finds no memory for one reel.
ghost use Rattle.std.specs.Prelude.{◌≡◌, []};
ghost use Rattle.reel_names.specs.Namers.{numbered};

use reel_names::{Name, NameFault, Numbered, ReelNamer};
use std::alloc::Global;
use std::marker::Model;

/// Numbers reels, as far as there are numbers, but finds no memory for one of them.
#[derive(Drop)]
pub struct Forgetful {
    namer: Numbered,
    given: u32,
    reel: u32,
}

impl Model for Forgetful {
    ghost use Rattle.std.specs.Prelude.{◌≡◌, ◌<◌, ◌≤◌, List, None, length};
    ghost use Rattle.reel_names.specs.declared.namer.ReelName.{ReelName};
    ghost use Rattle.reel_names.specs.Namers.{AreNames, name_of};

    ghost Value = { List ReelName };

    ghost view = { λ f. f.namer };

    ghost invariant = { λ f. AreNames f.namer
        × (f.given < 999 → (length f.namer ≤ f.given) × (name_of f.namer f.reel ≡ None)) };
}

impl Forgetful {
    /// A namer that has given no name, and finds no memory for this reel.
    pub fn new(alloc: Global, reel: u32) -> Forgetful
        ensures { result ≡ [] }
    {
        Forgetful {
            namer: Numbered::new(alloc),
            given: 0,
            reel,
        }
    }
}

impl ReelNamer for Forgetful {
    ghost given = { λ names. names };

    ghost rule = { λ _. numbered };

    // The next number as a name, or no memory for the one reel.
    fn name(&mut self, reel: u32, text: &str) -> Result<Name, NameFault> {
        if self.given >= 999 {
            return self.namer.name(reel, text);
        }
        if reel == self.reel {
            return Err(NameFault::Memory);
        }
        let name = self.namer.name(reel, text)?;
        self.given += 1;
        Ok(name)
    }
}
