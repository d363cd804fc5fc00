//! Tests of lines, words and numbers, of exact time and of the labels of a day: worked tables, call by call. There is
//! nothing here to run besides.
#![tactic(auto)]

#[cfg(test)]
mod arguments;
#[cfg(test)]
mod faults;
#[cfg(test)]
mod labels;
#[cfg(test)]
mod lines;
#[cfg(test)]
mod times;
