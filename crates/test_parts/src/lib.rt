//! Tests of what works for any object of parts, over small ones: sets of parts, calls that are taken back, and mirrors
//! of a room's history. There is nothing here to run besides.
#![tactic(auto)]

#[cfg(test)]
mod backs;
#[cfg(test)]
mod mirrors;
#[cfg(test)]
mod replays;
#[cfg(test)]
mod sets;
#[cfg(test)]
mod sides;
