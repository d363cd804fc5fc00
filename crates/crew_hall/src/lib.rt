//! A hall whose seats belong to somebody and outlive the connections over which they are taken. Each station has a seat, a
//! name and a key. Who knows them sits down, as often as its connection breaks, and goes on where it was. One thread lets
//! people in and never waits for one of them; the sessions wait for nobody but their own station. A connection talks lines
//! or HTTP: a browser gets a page, and sits down over a WebSocket. What a connection brings no clause says. What it says
//! before anybody sits over it is of `first_lines`, what a seat makes of what comes is the machine of `seat_lines`, and what
//! a request is answered and a message says is of `web_lines`.
#![tactic(auto)]

mod batch;
mod crew_hall;
mod crew_line;
mod door;
mod laws;
mod notes;
mod place;
mod report;
mod seat_port;

pub use crew_hall::{Bases, CrewHall, MOST_STATIONS};
pub use crew_line::CrewLine;
pub use door::{Door, tend};
pub use laws::a_seat_goes_on;
pub use place::{Place, places_of};
