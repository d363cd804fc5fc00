// The label of a frame: a time of day and a frame number.

/// A timecode, as `01:02:03:04`. It need be no label of any day.
#[derive(Clone, Copy, Debug, PartialEq, Eq)]
pub struct Label {
    pub hours: u8,
    pub minutes: u8,
    pub seconds: u8,
    pub frames: u8,
}
