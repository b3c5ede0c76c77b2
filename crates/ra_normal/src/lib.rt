//! The normal text of a set: its items one a line in their canonical texts, and its script as it stands.
#![tactic(auto)]

mod counting;
mod format_name;
mod laws;
mod lines;
mod refused;
mod script;
mod text;
mod values;

pub use counting::normal_conditions;
pub use laws::legacy_parts_are_condition_parts;
pub use refused::NormalRefused;
pub use text::normal;
