//! The journal of a room: one list of entries behind a lock, and tokens for its parts and stations. A token knows the
//! entries that were there when it was given out, and no entry since then names its part or station. So who gathers a
//! part's token again knows that the part stands as it stood.
//!
//! How tokens are kept. The journal has a table of one word, the number of entries, and each token is a seat of it
//! (`token`, `view`). Every name, of a part or a station, is held by one seat alone: by a token that is out, a
//! [`PartSeat`] or a [`Pass`], or by the seat that lies with the entries under the lock, the journal's own. [`Blank`]
//! is a table whose only seat has all names; [`Journal::open`] splits a token off for each. A [`Naming`] tells by its
//! type which table a token is of, so that none comes to another journal. In a [`Turn`], while one has the lock,
//! tokens are joined to the journal's seat, which then has their names and remembers what they knew; an entry is
//! added only where it has the names of the entry's parts and station, so no token that is out ever misses an entry
//! of its name; and each name is split off again as a token that knows all entries there are. The rule that all seats
//! keep, and that each of these steps keeps (`seats`), is the whole reason for what [`Turn::look`] says; nothing is
//! checked at run time.
//!
//! [`Turn::look`] is the main contract: the journal is a legal history of its opening, and what each gathered token knew
//! begins it and agrees with it on the token's name.
#![tactic(auto)]

mod journal;
mod log;
mod name;
mod seats;
mod token;
mod turn;
mod view;

pub use journal::{Blank, Journal};
pub use log::{CopyFault, MOST_ENTRIES};
pub use name::{Name, Naming};
pub use token::{PartSeat, Pass};
pub use turn::Turn;
pub use view::Beginning;
