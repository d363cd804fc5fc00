//! Tests of the crates that read and write documents: what documents are read as, their faults and limits, and that what
//! is written is read again. There is nothing here to run besides.
#![tactic(auto)]

#[cfg(test)]
mod documents;
