//! One group at one frame: hits, and what the group says.
#![tactic(auto)]

mod along;
mod equations;
mod form;
mod group_place;
mod laws;
mod outcome;
mod pass;
mod reads;
mod settled;
mod standing;
mod tally;
mod visit;

pub use along::step_at;
pub use form::Form;
pub use group_place::GroupPlace;
pub use laws::{equations_hold, handed_on_holds, measured_holds, outcome_holds};
pub use outcome::Outcome;
pub use pass::step;
pub use reads::Reads;
pub use standing::{Standing, stand};
pub use tally::{counts_hits, larger};
