//! Tests of the edits that put items into tracks and take them out, beside a plain program, and worked examples of those
//! of three tracks. There is nothing here to run besides.
#![tactic(auto)]

#[cfg(test)]
mod edits;
#[cfg(test)]
mod moves;
#[cfg(test)]
mod paged_links;
#[cfg(test)]
mod plain;
#[cfg(test)]
mod three_tracks;
