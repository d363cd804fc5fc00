// The names that a namer has given.
ghost use Rattle.std.specs.Prelude.{◌≡◌, ◌++◌, ◌∷◌, [], true, false, length, OnErr, OnOk};
ghost use Rattle.reel_names.specs.Names.{fits};
ghost use Rattle.reel_names.specs.Namers.{AreNames, has_name, has_reel, name_of};

use crate::name::Name;
use crate::namer::ReelName;
use out_of_memory::Memory;
use std::alloc::Global;
use std::marker::Model;

/// Names given, in order, no reel twice and no name twice. Contracts see the list of them.
#[derive(Drop)]
pub struct Given {
    names: Vec<ReelName>,
}

impl Model for Given {
    ghost use Rattle.std.specs.Prelude.{List};
    ghost use Rattle.reel_names.specs.declared.namer.ReelName.{ReelName};
    ghost use Rattle.reel_names.specs.Namers.{AreNames};

    ghost Value = { List ReelName };

    ghost view = { λ g. g.names.items };

    ghost invariant = { λ g. AreNames g.names.items };
}

impl Given {
    /// No names.
    pub fn new(alloc: Global) -> Given
        ensures { result ≡ [] }
    {
        Given {
            names: Vec::new(alloc),
        }
    }

    /// How many names were given.
    pub fn count(&self) -> usize
        ensures count { result ≡ length self.now }
        ensures names { AreNames self.now }
    {
        self.names.len()
    }

    /// The name of a reel, if it was given one.
    pub fn name_of(&self, reel: u32) -> Option<Name>
        ensures name { result ≡ name_of self.now reel }
        ensures names { AreNames self.now }
    {
        name_among(self.names.as_slice(), reel)
    }

    /// Whether a reel has this name.
    pub fn has_name(&self, name: &Name) -> bool
        ensures { result ≡ has_name self.now name.now }
    {
        self.names.iter().any(|given| given.name == *name)
    }

    /// Adds a name of a reel, after the others. Neither may be there. Out of memory, nothing is added.
    pub fn push(&mut self, reel: u32, name: Name) -> Result<(), Memory>
        requires fits { fits name ≡ true }
        requires reel { has_reel self.old reel ≡ false }
        requires name { has_name self.old name ≡ false }
        ensures ok { OnOk result (self.new ≡ self.old ++ record { reel = reel; name = name } ∷ []) }
        ensures names { OnOk result (AreNames self.new) }
        ensures err { OnErr result (self.new ≡ self.old) }
    {
        self.names.push(ReelName { reel, name })?;
        Ok(())
    }
}

/// The name of a reel among these, if it has one.
pub fn name_among(names: &[ReelName], reel: u32) -> Option<Name>
    ensures { result ≡ name_of names.now reel }
{
    for named in names {
        if named.reel == reel {
            return Some(named.name);
        }
    }
    None
}
