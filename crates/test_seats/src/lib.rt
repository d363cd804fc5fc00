//! Tests of seats: what lines say to them, and what comes of breaks, of takeovers and of many replies. There is
//! nothing here to run besides.
#![tactic(auto)]

#[cfg(test)]
mod seats;
