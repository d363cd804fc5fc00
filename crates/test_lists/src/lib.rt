//! Tests of the commands of edit decision lists over objects in memory: the list of a document's cut and of a cut at a
//! point, each refusal with its line, each call of the files and of the output failing, tapes, documents of lists, and files at
//! their limits. There is nothing here to run besides.
#![tactic(auto)]

#[cfg(test)]
mod calling;
#[cfg(test)]
mod countings;
#[cfg(test)]
mod fades;
#[cfg(test)]
mod forgetful;
#[cfg(test)]
mod imports;
#[cfg(test)]
mod limits;
#[cfg(test)]
mod lists;
#[cfg(test)]
mod tapes;
