//! Tests of what was recorded of stations: its texts, and sessions that a journal explains or not. There is nothing
//! here to run besides.
#![tactic(auto)]

#[cfg(test)]
mod sessions;
#[cfg(test)]
mod texts;
