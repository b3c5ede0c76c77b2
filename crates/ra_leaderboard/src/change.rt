use crate::state::BoardState;

/// What a frame did to a leaderboard attempt: docs/DEFINITIONS.md, "Leaderboard states".
#[derive(Clone, Copy, Debug, PartialEq, Eq)]
pub struct BoardChange {
    /// The state before the frame.
    pub before: BoardState,
    /// The state after the frame.
    pub after: BoardState,
}
