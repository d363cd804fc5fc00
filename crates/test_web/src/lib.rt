//! Tests of what a browser says: first bytes, heads of every kind, answers, and frames of WebSockets, whole and in pieces.
//! There is nothing here to run besides.
#![tactic(auto)]

#[cfg(test)]
mod answers;
#[cfg(test)]
mod heads;
#[cfg(test)]
mod streams;
