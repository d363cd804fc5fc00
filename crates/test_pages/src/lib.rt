//! Tests of lists in pages beside plain lists: filled, changed, searched, copied, read in pieces and passed by
//! page by page. There is nothing here to run besides.
#![tactic(auto)]

#[cfg(test)]
mod lists;
#[cfg(test)]
mod shots;
#[cfg(test)]
mod takes;
