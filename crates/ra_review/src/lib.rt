//! Reviews of sets: what is refused, line by line, and what is accepted but looks like a slip.
#![tactic(auto)]

mod display;
mod entries;
mod first_lines;
mod firsts;
mod formats;
mod front;
mod laws;
mod macros;
mod report;
mod reviewed;
mod script;
mod shown;
mod whole;

pub use laws::sets_are_not_refused;
pub use reviewed::Reviewed;
pub use whole::review;
