//! A set over a memory: a runtime that is made, stepped, shown, saved and restored.
#![tactic(auto)]

mod cells;
mod course;
mod kept;
mod laws;
mod lazy_shape;
mod numbers;
mod playthrough;
mod runtime;
mod shapes;
mod tallied;
mod written;

pub use cells::{DirectCell, direct_cells};
pub use course::Course;
pub use kept::{Kept, OtherSet};
pub use laws::taken_states_are_restored;
pub use playthrough::Playthrough;
pub use ra_items::{Events, ItemState};
pub use ra_meaning::{
    Event, calls_succeed, changed_sets_go_on, earned_achievements_stay_earned, histories_are_folds,
    histories_may_be_cut, openings_stand,
};
pub use runtime::Runtime;
pub use shapes::shape_of;
