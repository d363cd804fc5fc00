//! Tests of lists that are written: worked lists beside their tracks, each refusal, and each limit met and passed by one.
//! There is nothing here to run besides.
#![tactic(auto)]

#[cfg(test)]
mod cuts;
#[cfg(test)]
mod limits;
#[cfg(test)]
mod lists;
#[cfg(test)]
mod names;
