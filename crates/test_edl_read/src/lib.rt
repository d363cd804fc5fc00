//! Tests of lists that are read and of their tapes: a worked list with its faults, each code at its border, and the
//! text of tapes. There is nothing here to run besides.
#![tactic(auto)]

#[cfg(test)]
mod faults;
#[cfg(test)]
mod long_lines;
#[cfg(test)]
mod sample;
#[cfg(test)]
mod tapes;
