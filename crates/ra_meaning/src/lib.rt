//! What a set keeps, tells and prints after a history, and laws on it.
#![tactic(auto)]

mod event;
mod laws;

pub use event::Event;
pub use laws::{
    calls_succeed, changed_sets_go_on, earned_achievements_stay_earned, histories_are_folds,
    histories_may_be_cut, openings_stand,
};
