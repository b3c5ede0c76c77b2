//! Leaderboards: their text, and the states of an attempt.
#![tactic(auto)]

mod board;
mod board_text;
mod boards;
mod change;
mod field;
mod fields;
mod laws;
mod parse;
mod state;
mod tag;
mod tag_set;

pub use board::Board;
pub use board_text::BoardText;
pub use boards::take_board;
pub use change::BoardChange;
pub use laws::{one_board, spelled_boards};
pub use parse::parse_board;
pub use state::BoardState;
