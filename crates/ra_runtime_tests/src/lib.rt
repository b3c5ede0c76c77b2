//! Tests of `ra_runtime` over its public calls: sets are played step by step over a small memory, and told.
//!
//! They stand apart so that `ra_runtime` is not proved once more with them.
#![tactic(auto)]

#[cfg(test)]
mod changed;
#[cfg(test)]
mod courses;
#[cfg(test)]
mod damaged;
#[cfg(test)]
mod displays;
#[cfg(test)]
mod events;
#[cfg(test)]
mod items;
#[cfg(test)]
mod keeping;
#[cfg(test)]
mod played;
#[cfg(test)]
mod progress;
#[cfg(test)]
mod rests;
#[cfg(test)]
mod steps;
