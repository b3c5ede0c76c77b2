//! What jobs share: files that are read whole, texts and last lines that are written, and counts of a set.
#![tactic(auto)]

mod counting;
mod reading;
mod writing;

pub use counting::{achievements, leaderboards, scripts};
pub use reading::{ReadFailed, read_whole};
pub use writing::{put_last, write_all};
