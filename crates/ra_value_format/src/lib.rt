//! The texts of numbers: how a leaderboard or a display line writes a value.
#![tactic(auto)]

mod format;
mod texts;
mod write;

pub use format::Format;
pub use write::{format_value, put_signed, put_unsigned, put_value};
