//! Tests of desks with a kept file, over small objects: what the file holds after each point that it was brought up to,
//! whatever call of its disk fails, and how often it is synced. There is nothing here to run besides.
#![tactic(auto)]

#[cfg(test)]
mod asking;
#[cfg(test)]
mod keeping;
#[cfg(test)]
mod lines;
#[cfg(test)]
mod opening;
#[cfg(test)]
mod scripts;
#[cfg(test)]
mod stations;
#[cfg(test)]
mod texts;
#[cfg(test)]
mod threads;
#[cfg(test)]
mod watching;
