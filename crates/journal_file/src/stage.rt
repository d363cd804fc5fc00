// How far an append has come.

/// How far an append has come.
#[derive(Clone, Copy, Debug, PartialEq, Eq)]
pub enum Stage {
    /// None is pending.
    Settled,
    /// The lines may be written after the closed gate, and are not known to be on the disk.
    Staging,
    /// The lines are on the disk after the gate, and the gate may be open.
    Opening,
}
