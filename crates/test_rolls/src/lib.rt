//! Tests of roll and slide beside a plain program. There is nothing here to run besides.
#![tactic(auto)]

#[cfg(test)]
mod edits;
#[cfg(test)]
mod links;
#[cfg(test)]
mod plain;
