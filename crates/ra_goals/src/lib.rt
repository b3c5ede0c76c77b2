//! What the items of a set aim at: their ids, measured targets, formats, and the trigger of an id.
#![tactic(auto)]

mod choosing;
mod goal;
mod goals;
mod named;

pub use choosing::trigger_of;
pub use goal::{Goal, GoalKind, goal_of};
pub use goals::{format_in, goals_of};
pub use named::named_in;
