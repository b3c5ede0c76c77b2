//! How many cells and tracked masks a set has, without the plans by which it is played: docs/DEFINITIONS.md, "Counts of a set".
#![tactic(auto)]

mod counts;
mod plain;
mod planted;

pub use counts::{Counts, counts_of};
