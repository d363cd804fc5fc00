//! Tests of the records of kept files: which are entries that may come next, and what is told of
//! each that is not. There is nothing here to run besides.
#![tactic(auto)]

#[cfg(test)]
mod files;
#[cfg(test)]
mod records;
#[cfg(test)]
mod rooms;
