//! Tests of journals and of what rooms stand on besides, over small objects: the machine of many stations over counters,
//! replays, a journal of registers, and locks. There is nothing here to run besides.
#![tactic(auto)]

#[cfg(test)]
mod counted;
#[cfg(test)]
mod locks;
#[cfg(test)]
mod machine;
#[cfg(test)]
mod registers;
#[cfg(test)]
mod replays;
