// What a room answers, with the point of the answer in the journal. A point counts entries.
use room_core::{Entry, PartObject};

/// What an edit is answered.
#[derive(Drop)]
pub enum Answer<O: PartObject> {
    /// The edit is the entry at the point, counted from 0.
    Done { point: u32, done: O::Done },
    /// The edit does not apply after the entries before the point.
    Refused { point: u32, refusal: O::Refusal },
    /// The edit would be done, and the journal has its most entries, as many as the point says.
    Full { point: u32 },
    /// There was no memory; the station has no entry more.
    Memory,
}

/// What a question is answered. The point is the length of the journal when the part was looked at.
#[derive(Drop)]
pub enum Sight<O: PartObject> {
    /// The object's own answer.
    Seen { point: u32, seen: O::Seen },
    /// Why the question has no answer.
    Refused { point: u32, refusal: O::AskRefusal },
    /// There was no memory for the answer.
    Memory,
}

/// Entries of the journal from a place on, and how many the journal had when they were copied.
#[derive(Drop)]
pub struct Excerpt<C> {
    /// The entries, in order.
    pub entries: Vec<Entry<C>>,
    /// How many entries the journal had then.
    pub length: u32,
}
