//! Tests of the kept file of a cutting room: what it holds of the edits of two stations, byte by byte. There is nothing here
//! to run besides.
#![tactic(auto)]

#[cfg(test)]
mod files;
#[cfg(test)]
mod keeping;
#[cfg(test)]
mod rooms;
