//! Tests of JSON: tokens, trees that are read with their faults and limits, and trees that are written and read again.
//! There is nothing here to run besides.
#![tactic(auto)]

#[cfg(test)]
mod tokens;
#[cfg(test)]
mod trees;
#[cfg(test)]
mod written;
