//! The runtime as an emulator uses it: a set is loaded once, and each frame tells what it prints.
#![tactic(auto)]

mod frame;
mod loading;
#[cfg(test)]
mod tests;

pub use frame::{Told, play_frame};
pub use loading::load;
