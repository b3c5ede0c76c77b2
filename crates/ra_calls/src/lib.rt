//! What a call from C does: a handle that owns a game, or nothing.
//!
//! `ra_c` exports these calls; each does one thing that an emulator does, and states the clause of the call below it.
#![tactic(auto)]

mod board_number;
mod bytes;
mod cell;
mod choosing;
mod explaining;
mod game;
mod handle;
mod held;
mod keeping;
mod kept_slots;
mod laws;
mod making;
mod parts;
mod playing;
mod recording;
mod rewinding;
mod showing;
mod telling;
mod told_cell;
mod told_event;
mod told_item;
mod told_unlock;

pub use board_number::BoardNumber;
pub use explaining::{explain, record};
pub use handle::Handle;
pub use keeping::{earn, reset, restore, save, save_size};
pub use laws::{events_are_few, handles_cross, sets_stay};
pub use making::{free, make};
pub use playing::frame;
pub use rewinding::{keep, slots, take};
pub use telling::{cells, events, items, lines, number, presence};
pub use told_cell::ToldCell;
pub use told_event::ToldEvent;
pub use told_item::ToldItem;
pub use told_unlock::{ToldHits, ToldUnlock};
