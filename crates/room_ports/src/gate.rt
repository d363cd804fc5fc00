// A gate, at which a station stands before its edit is committed.

/// Where a station waits before it commits, if the gate lets it wait.
pub trait Gate {
    /// To be called once by each edit that applies, before it is appended; no clause says that it is. It answers
    /// nothing, and may wait.
    fn at_commit(&self, station: u32);
}

/// A gate at which nobody waits.
#[derive(Clone, Copy, Debug, PartialEq, Eq)]
pub struct OpenGate;

impl Gate for OpenGate {
    /// Nobody waits.
    fn at_commit(&self, _station: u32) {}
}
