//! Jobs over files and outputs that fail, that come in pieces, or that are too long for a folder, and words of the command line;
//! all other worked jobs are cases of the built programs. It has tests alone, so that what they call is proved once.
#![tactic(auto)]

#[cfg(test)]
mod cuts;
#[cfg(test)]
mod faults;
#[cfg(test)]
mod jobs;
#[cfg(test)]
mod large;
#[cfg(test)]
mod pieces;
#[cfg(test)]
mod words;
