//! Tests of what a range of a track and a whole cut show, of segments, and of dissolves put and taken away, over worked
//! rows and beside plain programs. There is nothing here to run besides.
#![tactic(auto)]

#[cfg(test)]
mod channels;
#[cfg(test)]
mod cutting;
#[cfg(test)]
mod fades;
#[cfg(test)]
mod limits;
#[cfg(test)]
mod marks;
#[cfg(test)]
mod tables;
#[cfg(test)]
mod tracks;
#[cfg(test)]
mod views;
