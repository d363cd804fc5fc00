//! Tests of the program's call by one station: talks, of what it sends and what it is answered to each line, and runs
//! whose words, input or calls may be at fault. There is nothing here to run besides.
#![tactic(auto)]

#[cfg(test)]
mod answered;
#[cfg(test)]
mod backs;
#[cfg(test)]
mod links;
#[cfg(test)]
mod runs;
#[cfg(test)]
mod talks;
