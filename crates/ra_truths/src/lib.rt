//! The distinct comparisons of a set, each once, with one truth: those that flipped at a frame are listed.
//!
//! A node whose value changed has its comparisons computed anew, and no other.
#![tactic(auto)]

mod comparison;
mod comparisons;
mod kept;
mod laws;
mod truths;
mod uses;

pub use comparison::Comparison;
pub use comparisons::Comparisons;
pub use laws::unflipped_truths_stay;
pub use truths::Truths;
