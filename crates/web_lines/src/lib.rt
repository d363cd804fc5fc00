//! What a browser says to a room: what the first bytes of a connection talk ([`talk_of`]), the head of one request of
//! HTTP ([`hear`]) and what it is answered ([`response`], which goes out by [`Outgoing`]), and a WebSocket as a stream of
//! lines ([`WebStream`]).
//!
//! Nothing of HTTP or of WebSocket is written here by hand. `httparse` finds the parts of a head, `http1` says what
//! its fields mean for its body and writes the head of a response, `websocket` checks the request for an upgrade and
//! writes what accepts it, `tungstenite` reads and sends messages. What is of this crate is which answer a head gets,
//! where a line ends, and the limits: [`MOST_HEAD`] bytes of a head, [`MOST_FIELDS`] fields, [`MOST_MESSAGE`] bytes of
//! a message that comes. Limits of time are the caller's. The main contracts are those of [`hear`] and of
//! [`WebStream`]'s `read` and `write`.
#![tactic(auto)]

mod answer;
mod deciding;
mod first_bytes;
mod laws;
mod messages;
mod outgoing;
mod request;
mod responses;
mod web_stream;

pub use answer::{Answer, refused_upgrade};
pub use deciding::answer_of;
pub use first_bytes::{LONGEST_METHOD, Talk, talk_of};
pub use laws::what_talks_is_told_once;
pub use outgoing::Outgoing;
pub use request::{Heard, MOST_FIELDS, MOST_HEAD, after_head, hear};
pub use responses::{Page, response};
pub use web_stream::{MOST_MESSAGE, WebStream};
