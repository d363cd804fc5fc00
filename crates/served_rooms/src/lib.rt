//! Rooms of many stations: each seated at a hall and served in a thread of its own, its journal kept in a file at the end;
//! and a generated session, whose stations are served in the same way.
//!
//! The main contract is that of [`serve_opened`]: one history explains every reply of every station, the file holds its
//! journal, and the status says how it ended. Its middle, [`seat_stations`] and [`serve_seated`], is for any room, and for
//! whatever keeps its journal while the stations are served.
#![tactic(auto)]

mod made;
mod seated;
mod stations;

pub use made::make_session;
pub use seated::Left;
pub use stations::{SeatedStations, Venue, seat_stations, serve_opened, serve_seated};
