//! Tests of ports, files and halls, over memory and over those of the system: what each call answers, and what is told of
//! those that fail. There is nothing here to run besides.
#![tactic(auto)]

#[cfg(test)]
mod files;
#[cfg(test)]
mod halls;
#[cfg(test)]
mod ports;
#[cfg(test)]
mod reports;
