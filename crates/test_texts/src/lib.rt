//! Tests of the crates between an edit and its text: the calls of an editor, the replies, the lines and the journal's
//! text, by worked examples. There is nothing here to run besides.
#![tactic(auto)]

#[cfg(test)]
mod editor;
#[cfg(test)]
mod lines;
#[cfg(test)]
mod replies;
