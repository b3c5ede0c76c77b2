//! Tests and values that step together: those of a leaderboard, and those of a display line.
//!
//! A member is planned over a pool, stepped by the frames of a table, saved as a row of hits and one of
//! numbers, and put back from two places of a progress file. What chooses among its values, and what is
//! kept beside them, is the caller's.
#![tactic(auto)]

mod laid;
mod member;
mod places;
mod planning;
mod put_back;
mod reading;
mod saved;
mod shape;
mod sides;
mod trigger_run;
mod value_run;

pub use laid::{Laid, Many};
pub use member::Member;
pub use places::Places;
pub use saved::put_numbers;
pub use sides::Sides;
pub use trigger_run::TriggerRun;
pub use value_run::ValueRun;
