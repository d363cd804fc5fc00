// Names as they are.
ghost use Rattle.std.specs.Prelude.{◌≡◌, []};
ghost use Rattle.reel_names.specs.Namers.{as_is, new_name};

use crate::given::Given;
use crate::name::Name;
use crate::namer::{NameFault, ReelNamer};
use std::alloc::Global;
use std::marker::Model;

/// Gives each reel its text as its name, and refuses a text that does not fit a list that is written, or that another
/// reel has. Contracts see the names that it has given.
#[derive(Drop)]
pub struct AsIs {
    given: Given,
}

impl Model for AsIs {
    ghost use Rattle.std.specs.Prelude.{List};
    ghost use Rattle.reel_names.specs.declared.namer.ReelName.{ReelName};

    ghost Value = { List ReelName };

    ghost view = { λ n. n.given };
}

impl AsIs {
    /// A namer that has given no name. It keeps the allocator for those to come.
    pub fn new(alloc: Global) -> AsIs
        ensures { result ≡ [] }
    {
        AsIs {
            given: Given::new(alloc),
        }
    }

    // The text as a name, unless it does not fit or is another reel's.
    fn free(&self, reel: u32, text: &str) -> Option<Name>
        ensures { result ≡ new_name as_is self.now reel text.now }
    {
        let name = match Name::of(text.as_bytes()) {
            Some(name) => name,
            None => return None,
        };
        if !name.fits() || self.given.has_name(&name) {
            return None;
        }
        Some(name)
    }
}

impl ReelNamer for AsIs {
    ghost given = { λ names. names };

    ghost rule = { λ _. as_is };

    // The text itself where it fits and no other reel has it, else `NoName`.
    fn name(&mut self, reel: u32, text: &str) -> Result<Name, NameFault> {
        match self.given.name_of(reel) {
            Some(name) => return Ok(name),
            None => {}
        }
        match self.free(reel, text) {
            Some(name) => {
                self.given.push(reel, name)?;
                Ok(name)
            }
            None => Err(NameFault::NoName),
        }
    }
}
