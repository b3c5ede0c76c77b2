//! Triggers over frames: hits, and the state of an achievement.
#![tactic(auto)]

mod change;
mod gathered;
mod laws;
mod state;
mod together;
mod trigger;
mod verdict;

pub use change::Change;
pub use laws::achievement_holds;
pub use state::State;
pub use together::step_groups;
pub use trigger::Trigger;
pub use verdict::Verdict;
