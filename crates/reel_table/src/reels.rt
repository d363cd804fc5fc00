// The table of reels.
ghost use Rattle.std.specs.Prelude.{◌≡◌, ◌<◌, ◌≤◌, [], length, Some, IfOk, OnOk, OnErr, IfSome, IfNone, slice_get};
ghost use Rattle.reel_table.specs.ReelNames.{AreDistinct, with_name};

use indexmap::IndexSet;
use out_of_memory::Memory;
use std::alloc::Global;
use std::marker::Model;

/// Reel names in order of first occurrence, without repeats. Contracts see the list of their texts.
#[derive(Drop)]
pub struct Reels {
    alloc: Global,
    names: IndexSet<String>,
}

impl Model for Reels {
    ghost use Rattle.std.specs.Prelude.{List, ℕ, ◌<◌, ◌^◌, length, map};
    ghost use Rattle.std.specs.String.{string_bytes};

    ghost Value = { List (List ℕ) };

    ghost view = { λ r. map (λ s. string_bytes s) r.names.keys };

    ghost use Rattle.reel_table.specs.ReelNames.{AreDistinct};

    ghost invariant = { λ r. (length r.names.keys < 2 ^ 32)
        × AreDistinct (map (λ s. string_bytes s) r.names.keys) };
}

impl Reels {
    /// A table without reels. It keeps the allocator for those to come.
    pub fn new(alloc: Global) -> Reels
        ensures { result ≡ [] }
    {
        Reels {
            alloc,
            names: IndexSet::new(alloc),
        }
    }

    /// How many reels there are.
    pub fn count(&self) -> u32
        ensures count { result ≡ length self.now }
        ensures distinct { AreDistinct self.now }
    {
        self.names.len() as u32
    }

    /// The name of a reel, or `None` where there is no such reel.
    pub fn name(&self, reel: u32) -> Option<&str>
        ensures found { IfSome result (λ name. slice_get self.now reel ≡ Some name.now) }
        ensures none { IfNone result (length self.now ≤ reel) }
    {
        Some(self.names.get_index(reel as usize)?.as_str())
    }

    /// The number of a name. One that is there keeps its number, another goes last.
    pub fn add(&mut self, name: &str) -> Result<u32, Memory>
        requires { length self.old < 4294967295 }
        ensures ok { OnOk result (self.new ≡ with_name self.old name.now) }
        ensures number { IfOk result (λ n. slice_get self.new n ≡ Some name.now) }
        ensures err { OnErr result (self.new ≡ self.old) }
    {
        match self.names.get_index_of(name) {
            Some(i) => return Ok(i as u32),
            None => {}
        }
        let text = String::from_str(self.alloc, name)?;
        let i = self.names.len() as u32;
        self.names.insert(text)?;
        Ok(i)
    }

    /// An equal table.
    pub fn copy(&self, alloc: Global) -> Result<Reels, Memory>
        ensures { IfOk result (λ r. r ≡ self.now) }
    {
        let names = self.names.clone()?;
        Ok(Reels { alloc, names })
    }
}
