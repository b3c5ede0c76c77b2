//! The memory reference table: a frame reads each cell that is marked or moved, and delta and prior are kept.
//!
//! A table holds no image. Its caller does, and tells it which bytes were written.
#![tactic(auto)]

mod agenda;
mod cell_places;
mod cell_view;
mod changes;
mod flag_row;
mod flags;
mod kept_cell;
mod late_watches;
mod laws;
mod layout;
mod name_room;
mod names;
mod node_plan;
mod numbers;
mod table;
mod told_bytes;
mod watches;

pub use flags::{Flags, set_all};
pub use laws::looking_back_holds;
pub use name_room::NameRoom;
pub use names::{Names, names_of};
pub use table::{Table, nodes_of};
