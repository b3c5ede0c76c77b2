//! Warnings on a set: comparisons that never or always hold, targets that are never reached, and triggers that
//! are never true.
#![tactic(auto)]

mod chance;
mod judged;
mod judging;
mod laws;
mod on_group;
mod on_item;
mod on_set;
mod range;
mod rows;
mod verdict;
mod warning;

pub use judging::always_hold;
pub use laws::{accepted_sets_have_few_alts, ranges_hold, verdicts_hold, warnings_hold};
pub use on_set::lint;
pub use warning::{Place, Warning, Word};
