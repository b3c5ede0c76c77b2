//! Tests of what is read and written: files and sinks, documents, progress files and traces.
//!
//! They stand apart so that the crates that they show are not proved once more with them.
#![tactic(auto)]

#[cfg(test)]
mod files;
#[cfg(test)]
mod left;
#[cfg(test)]
mod official;
#[cfg(test)]
mod progress;
#[cfg(test)]
mod traces;
