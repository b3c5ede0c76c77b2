//! The items of a set over one table of memory references, of which those that rest are not stepped.
#![tactic(auto)]

mod achievement_run;
mod board_run;
mod earning;
mod events;
mod item_run;
mod item_state;
mod keeping;
mod rest;
mod restored;
mod rests;
mod rooms;
mod runs;
mod saved;
mod shapes;
mod told;

pub use achievement_run::AchievementRun;
pub use board_run::BoardRun;
pub use earning::{earn_runs, earned_in};
pub use events::Events;
pub use item_run::ItemRun;
pub use item_state::ItemState;
pub use keeping::keep_runs;
pub use rest::ItemCounts;
pub use restored::put_back_runs;
pub use rests::Rests;
pub use rooms::Rooms;
pub use runs::{new_runs, state_in};
pub use saved::put_runs;
pub use shapes::item_shapes;
