// Where the events of a channel begin.
ghost use Rattle.std.specs.Prelude.{◌≡◌, ◌≤◌, ◌==◌, ℕ, None, Some, IfNone, IfSome, IsSome, OnOk, if◌then◌else◌};
ghost use Rattle.edl_read.specs.Laying.{start_of};

use crate::Memory;
use std::alloc::Global;
use std::collections::BTreeMap;

/// The index of the event that begins at a record frame, where one does.
#[derive(Drop)]
pub(crate) struct Starts {
    pub indices: BTreeMap<u32, usize>,
}

impl Starts {
    /// No starts.
    pub(crate) fn new(alloc: Global) -> Starts
        ensures { (place : ℕ) → start_of result place ≡ None }
    {
        Starts {
            indices: BTreeMap::new(alloc),
        }
    }

    // Notes the event that begins at a record frame, in place of another there.
    pub(crate) fn add(&mut self, at: u32, index: usize) -> Result<(), Memory>
        ensures { OnOk result ((place : ℕ) → start_of self.new place
            ≡ (if place == at then Some index else start_of self.old place)) }
    {
        self.indices.insert(at, index)?;
        Ok(())
    }

    // The first start from a record frame on, and its index.
    pub(crate) fn first_from(&self, at: u32) -> Option<(u32, usize)>
        ensures begins { IfSome result (λ s. (at ≤ s.0) × (start_of self.now s.0 ≡ Some s.1)) }
        ensures first { IfSome result (λ s. (place : ℕ) → at ≤ place
            → IsSome (start_of self.now place) → s.0 ≤ place) }
        ensures none { IfNone result ((place : ℕ) → at ≤ place → start_of self.now place ≡ None) }
    {
        match self.indices.range(at..).next() {
            Some((place, index)) => Some((*place, *index)),
            None => None,
        }
    }

    // The last start up to a record frame, that one too, and its index.
    pub(crate) fn last_up_to(&self, at: u32) -> Option<(u32, usize)>
        ensures begins { IfSome result (λ s. (s.0 ≤ at) × (start_of self.now s.0 ≡ Some s.1)) }
        ensures last { IfSome result (λ s. (place : ℕ) → place ≤ at
            → IsSome (start_of self.now place) → place ≤ s.0) }
        ensures none { IfNone result ((place : ℕ) → place ≤ at → start_of self.now place ≡ None) }
    {
        match self.indices.range(..=at).next_back() {
            Some((place, index)) => Some((*place, *index)),
            None => None,
        }
    }
}
