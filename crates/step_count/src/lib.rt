//! Counted steps at no cost: a counter without bytes, which only `tick` changes, so that a contract can bound the
//! work of a call.
#![tactic(auto)]

mod steps;

pub use steps::Steps;

#[cfg(test)]
mod tests;
