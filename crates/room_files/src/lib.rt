//! Files that stand outside, as one trait, with files over memory and those of the system. A file is read whole or
//! refused as too large; a write holds these bytes and nothing else, and changes no other file, where what files hold
//! is told. A call answers `Failed` only where the count of its reads or of its writes rose. Files of the system, and
//! readers and writers with a name, tell a report what failed and why.
#![tactic(auto)]

mod beside;
mod files;
mod memory_files;
mod places;
mod report;
mod reported;
mod standard_files;
mod sure_files;
mod written;

pub use files::{FileFault, Files};
pub use memory_files::MemFiles;
pub use report::Report;
pub use reported::Reported;
pub use standard_files::{StdFiles, read_all};
pub use sure_files::SureFiles;
