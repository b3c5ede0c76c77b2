//! Tests of what is stepped at a frame over public calls: groups, pass orders, trees, triggers and values.
//!
//! They stand apart so that the crates that they show are not proved once more with them.
#![tactic(auto)]

#[cfg(test)]
mod given;
#[cfg(test)]
mod groups;
#[cfg(test)]
mod orders;
#[cfg(test)]
mod trees;
#[cfg(test)]
mod triggers;
#[cfg(test)]
mod values;
