// What a step is answered.

/// Why a step is refused. Nothing has changed.
#[derive(Debug, Drop, PartialEq, Eq)]
pub enum BackRefusal<R> {
    /// The object's own refusal of a call that was to be done.
    Own(R),
    /// There is no such part. A taking back of no part at all names the count of parts.
    NoPart(u32),
    /// Of this part nothing can be taken back, or what another station did.
    NotYours(u32),
    /// The call that changed this part last named other parts.
    OtherTracks(u32),
}

/// What a step answers that was done.
#[derive(Debug, Drop, PartialEq, Eq)]
pub enum BackDone<D> {
    /// The object's own answer of a call that was done.
    Own(D),
    /// A call was taken back.
    Plain,
}
