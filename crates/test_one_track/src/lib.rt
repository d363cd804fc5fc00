//! Tests of the edits of one track that put an item into it or take one out: worked examples of each. There is nothing here
//! to run besides.
#![tactic(auto)]

#[cfg(test)]
mod edits;
