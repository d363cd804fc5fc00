//! Disks with files that outlive a stop. `Disk` tells how its open file has stood from call to call, and with that what
//! a crash may leave of it: after a sync that succeeded what a read gives, before it also what the changes since may
//! have come to. `MemDisk`, which fails where it is told to, and `SureDisk`, which never fails, hold a file over memory
//! and each call that was made on it. `StdDisk` is the disk of the system, which tells contracts nothing,
//! and a writer which call failed and why.
#![tactic(auto)]

mod disk;
mod memory_disk;
mod noting;
mod report;
mod standard_disk;
mod sure_disk;
mod tape;

pub use disk::Disk;
pub use memory_disk::MemDisk;
pub use standard_disk::StdDisk;
pub use sure_disk::SureDisk;
pub use tape::{DiskCall, TapeFile};
