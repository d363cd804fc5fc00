//! Tests of rooms over small objects: edits of many stations, cuts that are kept, what is copied and done how often, and
//! what goes on at the same time. There is nothing here to run besides.
#![tactic(auto)]

#[cfg(test)]
mod asked;
#[cfg(test)]
mod begun;
#[cfg(test)]
mod beside;
#[cfg(test)]
mod excerpts;
#[cfg(test)]
mod kept;
#[cfg(test)]
mod meeting;
#[cfg(test)]
mod rooms;
#[cfg(test)]
mod signs;
#[cfg(test)]
mod tallied;
