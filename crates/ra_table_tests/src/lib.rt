//! Tests of what stands below a frame: images, lists, pools, reference tables, truths of comparisons, who reads nodes, and who
//! is due.
//!
//! They stand apart so that the crates that they show are not proved once more with them.
#![tactic(auto)]

#[cfg(test)]
mod images;
#[cfg(test)]
mod lists;
#[cfg(test)]
mod pools;
#[cfg(test)]
mod schedules;
#[cfg(test)]
mod tables;
#[cfg(test)]
mod truths;
#[cfg(test)]
mod wakings;
