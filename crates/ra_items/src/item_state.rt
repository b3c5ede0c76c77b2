use ra_leaderboard::BoardState;
use ra_trigger::State;

/// Where an item stands between frames: docs/DEFINITIONS.md, "What a runtime keeps".
#[derive(Clone, Copy, Debug, PartialEq, Eq)]
pub enum ItemState {
    /// An achievement, and its measured number.
    Achievement { state: State, measured: u32 },
    /// A leaderboard, and the number that its attempt tracks.
    Leaderboard { state: BoardState, tracked: i32 },
}
