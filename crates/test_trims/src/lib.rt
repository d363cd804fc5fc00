//! Tests of the delta that an edit uses, and of trim, slip and ripple beside a plain program. There is nothing here to
//! run besides.
#![tactic(auto)]

#[cfg(test)]
mod deltas;
#[cfg(test)]
mod edits;
#[cfg(test)]
mod links;
#[cfg(test)]
mod plain;
#[cfg(test)]
mod ripples;
