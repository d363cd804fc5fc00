// Entries of a journal.

/// A call that was committed: the station that sent it, the number that it bears there, and the call.
#[derive(Debug, Drop, PartialEq, Eq)]
pub struct Entry<C> {
    /// The station that sent the call.
    pub station: u32,
    /// The number that it bears there, above those of the station's entries before it.
    pub number: u32,
    /// What was done.
    pub call: C,
}
