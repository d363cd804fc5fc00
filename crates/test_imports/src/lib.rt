//! Tests of lists as openings: a worked list beside its tracks, events of each form, each refusal at its border. There is
//! nothing here to run besides.
#![tactic(auto)]

#[cfg(test)]
mod lists;
#[cfg(test)]
mod many;
#[cfg(test)]
mod refusals;
#[cfg(test)]
mod tracks;
