// The addresses at which a hall was opened.
ghost use Rattle.std.specs.Prelude.{◌≡◌, [], ◌∷◌, ◌++◌, Some, IfOk, map};
ghost use Rattle.std.specs.String.{string_bytes};
ghost use Rattle.room_halls.specs.Stations.{OpensAt};

use room_ports::Memory;
use std::alloc::Global;
use std::marker::Model;

/// Addresses, in order. They are told while there is memory for them.
#[derive(Drop)]
pub struct Addresses {
    opened: Option<Vec<String>>,
}

impl Model for Addresses {
    ghost use Rattle.std.specs.Prelude.{List, ℕ, Option, map, option_map};
    ghost use Rattle.std.specs.String.{string_bytes};

    ghost Value = { Option (List (List ℕ)) };

    ghost view = { λ a. option_map (λ v. map string_bytes v.items) a.opened };
}

impl Addresses {
    /// No address so far.
    pub fn none(alloc: Global) -> Addresses
        ensures { result ≡ Some [] }
    {
        Addresses {
            opened: Some(Vec::new(alloc)),
        }
    }

    /// One address more. Where its memory is refused none is told from then on.
    pub fn add(&mut self, alloc: Global, address: &str)
        ensures { OpensAt self.old self.new address.now }
    {
        self.opened = match self.opened.take() {
            Some(opened) => with_address(alloc, opened, address).ok(),
            None => None,
        };
    }
}

// These addresses, with one more at the end.
fn with_address(alloc: Global, opened: Vec<String>, address: &str) -> Result<Vec<String>, Memory>
    ensures { IfOk result (λ v. map string_bytes v.items
        ≡ map string_bytes opened.items ++ address.now ∷ []) }
{
    let mut opened = opened;
    opened.push(String::from_str(alloc, address)?)?;
    Ok(opened)
}
