//! Values over frames: a number for each part, of which the greatest counts.
#![tactic(auto)]

mod greatest;
mod laws;
mod parts;
mod value;

pub use laws::value_holds;
pub use value::Value;
