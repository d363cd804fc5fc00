//! Tests of halls whose seats belong to a crew, over loopback: where they listen, who gets a seat and who gets none, how a
//! station goes on over another connection, and how it leaves. There is nothing here to run besides.
#![tactic(auto)]

#[cfg(test)]
mod clients;
#[cfg(test)]
mod opening;
#[cfg(test)]
mod rooms;
#[cfg(test)]
mod seats;
#[cfg(test)]
mod sessions;
#[cfg(test)]
mod strangers;
