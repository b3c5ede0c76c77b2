//! Tests of `ra_explain` over its public calls: an achievement is recorded over a small memory, and told, and
//! explanations are checked.
//!
//! They stand apart so that `ra_explain` is not proved once more with them.
#![tactic(auto)]

#[cfg(test)]
mod explanations;
#[cfg(test)]
mod looks;
#[cfg(test)]
mod recorded;
#[cfg(test)]
mod recorders;
#[cfg(test)]
mod watched;
