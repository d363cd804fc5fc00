//! Tests of crews: which file is one, who sits where, what first lines ask for, and how an address is parted. There is
//! nothing here to run besides.
#![tactic(auto)]

#[cfg(test)]
mod crews;
#[cfg(test)]
mod entries;
