//! Tests of the command `follow` over objects in memory: mirrors of streams in pieces of every length, each refusal with its
//! line, each call of the files, the input and the output failing, and streams at their limits. There is nothing here to
//! run besides.
#![tactic(auto)]

#[cfg(test)]
mod calling;
#[cfg(test)]
mod limits;
#[cfg(test)]
mod mirrors;
#[cfg(test)]
mod refusals;
