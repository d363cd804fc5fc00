// The events of a list as a track shows them.
use frame_meaning::{Side, What};

/// An event as a track shows it: what stands on its sides are media, or dark.
#[derive(Clone, Copy, Debug, PartialEq, Eq)]
pub struct Shot {
    /// The channels that it is on: bit 0 is V, bit 1 is A, bit 2 is A2.
    pub channels: u8,
    /// The record frame of its first frame.
    pub place: u32,
    /// How many frames it has, those of its dissolve counted.
    pub len: u32,
    /// What the outgoing side of its dissolve shows at its first frame, if it has one.
    pub from: Option<Side<What>>,
    /// How many frames its dissolve has, and 0 where there is none.
    pub frames: u32,
    /// What its own side shows at its first frame.
    pub side: Side<What>,
}
