// What gives reels their names in a list.
use crate::name::Name;
use out_of_memory::Memory as OutOfMemory;
use std::alloc::AllocFailed;

/// A reel, by its number in the table of a cut, and its name in a list.
#[derive(Clone, Copy, Debug, PartialEq, Eq)]
pub struct ReelName {
    pub reel: u32,
    pub name: Name,
}

/// Why a reel has no name.
#[derive(Clone, Copy, Debug, PartialEq, Eq)]
pub enum NameFault {
    /// The namer refuses it.
    NoName,
    /// Out of memory.
    Memory,
}

impl From<OutOfMemory> for NameFault {
    ghost use Rattle.std.specs.Prelude.{◌≡◌};
    ghost use Rattle.reel_names.specs.declared.namer.NameFault.TheVariants.{Memory};

    ghost from_gives = { λ _ fault. fault ≡ Memory };

    // There was no room for one name more.
    fn from(_: OutOfMemory) -> Self {
        NameFault::Memory
    }
}

/// Gives reels their names in a list. It keeps the names that it has given: no reel has two, and no name has two reels.
/// What it refuses and what it gives are functions of what it was made with, of the names given so far, and of the reel
/// and its text.
pub trait ReelNamer: Drop {
    ghost use Rattle.std.specs.Prelude.{◌≡◌, ◌↔◌, List, None, Some, Err, IfOk, OnErr};
    ghost use Rattle.reel_names.specs.declared.namer.NameFault.TheVariants.{Memory, NoName};
    ghost use Rattle.reel_names.specs.declared.namer.ReelName.{ReelName};
    ghost use Rattle.reel_names.specs.Namers.{AreNames, NamerRule, name_for, name_of, with_name};

    /// The names given so far, in order.
    ghost given: { Self → List ReelName };

    /// What it refuses, and what it gives.
    ghost rule: { Self → NamerRule };

    /// The name of a reel, whose text is that of the table. A reel that has a name gets it again.
    fn name(&mut self, reel: u32, text: &str) -> Result<Name, NameFault>
        // It is the name that the reel has, or else the one that the rule gives it.
        ensures name { IfOk result (λ name.
            name_for (rule self.old) (given self.old) reel text.now ≡ Some name) }
        ensures grows { IfOk result
            (λ name. given self.new ≡ with_name (given self.old) reel name) }

        ensures no_name { (result ≡ Err NoName)
            ↔ (name_for (rule self.old) (given self.old) reel text.now ≡ None) }
        // A reel that has a name takes no memory.
        ensures memory { (result ≡ Err Memory) → name_of (given self.old) reel ≡ None }
        ensures stays { OnErr result (given self.new ≡ given self.old) }

        ensures rule { rule self.new ≡ rule self.old }
        // No reel and no name is there twice, and each name fits a list that is written.
        ensures names { AreNames (given self.new) };
}
