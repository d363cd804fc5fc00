//! Tests of the program's call over objects in memory: what is sent, and what is answered, written and kept. There is
//! nothing here to run besides.
#![tactic(auto)]

#[cfg(test)]
mod documents;
#[cfg(test)]
mod far_back;
#[cfg(test)]
mod made;
#[cfg(test)]
mod replays;
#[cfg(test)]
mod soak;
#[cfg(test)]
mod stations;
#[cfg(test)]
mod turns;
