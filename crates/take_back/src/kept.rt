// A part with what it was before.
ghost use Rattle.std.specs.Prelude.{◌≡◌, IfOk, map};
ghost use Rattle.take_back.specs.Parts.{fresh, nows};

use room_core::{Memory, PartObject};
use std::alloc::Global;

/// A part, and what it was before the call that changed it last, where that can be taken back.
#[derive(Drop)]
pub struct Kept<P> {
    /// The part as it is.
    pub now: P,
    /// What it was before its last call; `None` where nothing can be taken back.
    pub before: Option<Former<P>>,
}

/// What a part was before a call: that part, the parts that the call named, as a set, and the station that sent it.
#[derive(Drop)]
pub struct Former<P> {
    /// The part as it was.
    pub part: P,
    /// The parts that the call named, bit n for the part n.
    pub names: u32,
    /// The station that sent the call.
    pub by: u32,
}

impl<P> Kept<P> {
    /// A part of which nothing can be taken back, as each part of an opening.
    pub fn fresh(part: P) -> Kept<P>
        ensures { result ≡ fresh part }
    {
        Kept {
            now: part,
            before: None,
        }
    }
}

/// The parts of an opening, of each of which nothing can be taken back.
pub fn fresh_parts<P: Drop>(alloc: Global, parts: Vec<P>) -> Result<Vec<Kept<P>>, Memory>
    ensures { IfOk result (λ kept. kept.items ≡ map fresh parts.items) }
{
    let mut kept = Vec::with_capacity(alloc, parts.len())?;
    for part in parts {
        kept.push(Kept::fresh(part))?;
    }
    Ok(kept)
}

/// The parts as they are now, each an equal one.
pub fn nows_of<O: PartObject>(
    alloc: Global,
    object: &O,
    parts: &[Kept<O::Part>],
) -> Result<Vec<O::Part>, Memory>
    ensures { IfOk result (λ copies. copies.items ≡ nows parts.now) }
{
    let mut copies = Vec::with_capacity(alloc, parts.len())?;
    for part in parts {
        copies.push(object.copy_part(alloc, &part.now)?)?;
    }
    Ok(copies)
}
