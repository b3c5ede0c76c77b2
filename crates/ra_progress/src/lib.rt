//! Progress files: what a set keeps between runs, in three versions.
//!
//! Version 3 is written, and versions 1, 2 and 3 are read. What takes memory is `order_of`, `OrderRoom::new`,
//! `Said::new`, `decode`, `encode`, and the calls that write a file piece by piece.
#![tactic(auto)]

mod checking;
mod entries;
mod entry_blocks;
mod entry_places;
mod filling;
mod hex;
mod laws;
mod layout;
mod named;
mod names;
mod numbered;
mod numbers;
mod order;
mod own;
mod places;
mod range;
mod reading;
mod refused;
mod relation;
mod said;
mod shape;
mod snapshot;
mod states;
mod writing;

pub use checking::check;
pub use entry_blocks::{
    AchievementBlock, BoardBlock, PresenceBlock, achievement_block, board_block, presence_block,
};
pub use filling::fill_up;
pub use hex::Hex;
pub use laws::both_ways;
pub use layout::{cell_count, entry_after, entry_count, first_entry, prior_count};
pub use named::Named;
pub use names::name_at;
pub use order::{OrderRoom, order_of};
pub use places::{file_length, frames_at, item_at, length, length_1, presence_at};
pub use ra_text::word_at;
pub use range::matches;
pub use reading::{decode, is_earned, state_said};
pub use refused::ProgressRefused;
pub use relation::of_this_set;
pub use said::Said;
pub use shape::{ItemShape, PresenceShape, Shape};
pub use snapshot::{ItemKept, PresenceKept, Snapshot};
pub use writing::{begin, close, encode, put_achievement, put_board, put_presence, state_byte};
