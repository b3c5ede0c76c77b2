//! Notices on the items of a set: what is accepted but looks like a slip.
#![tactic(auto)]

mod class;
mod conditions;
mod groups;
mod items;
mod key;
mod laws;
mod notice;
mod standing;
mod twice;

pub use items::review_item;
pub use laws::no_unlock;
pub use notice::{Notice, Word};
