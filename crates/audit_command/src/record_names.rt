// How much of the files that were recorded is read.

/// The most bytes of the lines of a station that are read: 64 MiB.
pub const MAX_LINES: u32 = 67_108_864;

/// The most bytes of the replies of a station that are read: 1 GiB less one.
pub const MAX_REPLIES: u32 = 1_073_741_823;

/// The most stations that are audited.
pub const MAX_STATIONS: usize = 16;
