//! Why an achievement did not unlock: an achievement over a memory, with the account of its frames, and its text.
#![tactic(auto)]

mod alt_lines;
mod condition_lines;
mod group_lines;
mod kept;
mod lines;
mod room;
mod showing;
mod sides;
mod taking;
mod watcher;
mod whole;

pub use kept::Kept;
pub use room::Room;
pub use taking::{Taken, take_record};
pub use watcher::Watcher;
pub use whole::account_text;
