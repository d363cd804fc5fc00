//! Tests of the command `audit` over objects in memory: a recorded session of four stations, each reply and each entry of
//! it with another number, left out, doubled and moved; sessions that were cut short; each refusal of a document and a
//! journal; each call of the files and the output failing; and what is recorded at its limits. There is nothing here to
//! run besides.
#![tactic(auto)]

#[cfg(test)]
mod calling;
#[cfg(test)]
mod changes;
#[cfg(test)]
mod cuts;
#[cfg(test)]
mod limits;
#[cfg(test)]
mod recorded;
#[cfg(test)]
mod refusals;
#[cfg(test)]
mod rows;
