//! Tests of faults at the program's call: each call of files, of input and output, of the hall and of each station's line
//! fails in its turn, over objects in memory. There is nothing here to run besides.
#![tactic(auto)]

#[cfg(test)]
mod faults;
#[cfg(test)]
mod hall_faults;
