//! Halls, where each station of a room has a line. A hall tells of each station what its line has left and took, where
//! bytes are told, its line's two counts of faults, and whether it was seated; and the addresses at which it was opened. A
//! line that is seated stands as the hall told of it; a line that stands up leaves what it took, has left and counted;
//! neither changes what is told of another station.
#![tactic(auto)]

mod addresses;
mod hall;
mod memory_hall;
mod report;
mod seats;
mod sure_hall;
mod sure_line;
mod tcp_hall;
mod tcp_line;
mod timed;

pub use hall::{Hall, HallFault, HallLine};
pub use memory_hall::MemHall;
pub use sure_hall::SureHall;
pub use sure_line::SurePair;
pub use tcp_hall::TcpHall;
pub use tcp_line::{Connection, TcpLine};
pub use timed::Timed;
