// Names by number.
ghost use Rattle.std.specs.Prelude.{◌≡◌, ◌<◌, []};
ghost use Rattle.reel_names.specs.Namers.{numbered, numbered_name};

use crate::digits::three_digits;
use crate::given::Given;
use crate::name::Name;
use crate::namer::{NameFault, ReelNamer};
use std::alloc::Global;
use std::marker::Model;

/// The most reels that get a number.
pub const MAX_NUMBERED: usize = 999;

/// Names the reels `R001`, `R002` and so on, in the order in which it is asked, and refuses after `R999`. Contracts see
/// the names that it has given.
#[derive(Drop)]
pub struct Numbered {
    given: Given,
}

impl Model for Numbered {
    ghost use Rattle.std.specs.Prelude.{List};
    ghost use Rattle.reel_names.specs.declared.namer.ReelName.{ReelName};
    ghost use Rattle.reel_names.specs.Namers.{AreNumbered};

    ghost Value = { List ReelName };

    ghost view = { λ n. n.given };

    ghost invariant = { λ n. AreNumbered 1 n.given };
}

impl Numbered {
    /// A namer that has given no name. It keeps the allocator for those to come.
    pub fn new(alloc: Global) -> Numbered
        ensures { result ≡ [] }
    {
        Numbered {
            given: Given::new(alloc),
        }
    }
}

impl ReelNamer for Numbered {
    ghost given = { λ names. names };

    ghost rule = { λ _. numbered };

    // `R` and the next number, else `NoName` after 999 names; the text is not looked at.
    fn name(&mut self, reel: u32, _text: &str) -> Result<Name, NameFault> {
        match self.given.name_of(reel) {
            Some(name) => return Ok(name),
            None => {}
        }
        let count = self.given.count();
        if count >= MAX_NUMBERED {
            return Err(NameFault::NoName);
        }
        let name = numbered_name(count as u32 + 1);
        self.given.push(reel, name)?;
        Ok(name)
    }
}

// `R` and a number of three digits.
fn numbered_name(n: u32) -> Name
    requires { n < 1000 }
    ensures { result ≡ numbered_name n }
{
    let [hundreds, tens, ones] = three_digits(n);
    Name::of(&[b'R', hundreds, tens, ones]).unwrap()
}
