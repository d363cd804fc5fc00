//! Tests of tracks and of what is cut out of them and put in: frames and runs, items and gaps, splices and links, over
//! tracks that are laid for them. There is nothing here to run besides.
#![tactic(auto)]

#[cfg(test)]
mod frames;
#[cfg(test)]
mod laying;
#[cfg(test)]
mod links;
#[cfg(test)]
mod playing;
#[cfg(test)]
mod rows;
#[cfg(test)]
mod splices;
#[cfg(test)]
mod tracks;
