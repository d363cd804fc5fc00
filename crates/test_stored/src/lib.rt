//! Tests of rooms whose journal is kept on a disk as it grows, at the program's call and over objects in memory: what a
//! file holds after each session, how each file is refused, and each call of the disk failing. There is nothing here to run
//! besides.
#![tactic(auto)]

#[cfg(test)]
mod crashes;
#[cfg(test)]
mod refusals;
#[cfg(test)]
mod rooms;
#[cfg(test)]
mod sessions;
