/// The state of a leaderboard attempt: docs/DEFINITIONS.md, "Leaderboard states".
#[derive(Clone, Copy, Debug, PartialEq, Eq)]
pub enum BoardState {
    /// Byte 0: start has not been false yet.
    Waiting,
    /// Byte 1: an attempt may start.
    Active,
    /// Byte 2: an attempt goes on.
    Started,
    /// Byte 3: the attempt was cancelled, and start has not been false since.
    Cancelled,
    /// Byte 4: the attempt was submitted, and start has not been false since.
    Submitted,
}

impl BoardState {
    ghost use Rattle.std.specs.Prelude.{◌≡◌};
    ghost use Rattle.ra_leaderboard.specs.States.{board_byte, board_state_of, state_after};

    /// The byte that stands for the state: docs/DEFINITIONS.md, "Leaderboard states".
    pub fn byte(self) -> u8
        ensures { result ≡ board_byte self }
    {
        match self {
            BoardState::Waiting => 0,
            BoardState::Active => 1,
            BoardState::Started => 2,
            BoardState::Cancelled => 3,
            BoardState::Submitted => 4,
        }
    }

    /// The state that a byte stands for; every byte from 4 on stands for `Submitted`.
    pub fn of_byte(byte: u8) -> BoardState
        ensures { result ≡ board_state_of byte }
    {
        match byte {
            0 => BoardState::Waiting,
            1 => BoardState::Active,
            2 => BoardState::Started,
            3 => BoardState::Cancelled,
            _ => BoardState::Submitted,
        }
    }

    /// The state after a frame, by the truths of start, cancel and submit.
    pub(crate) fn after(self, start: bool, cancel: bool, submit: bool) -> Self
        ensures { result ≡ state_after self start cancel submit }
    {
        match self {
            BoardState::Waiting if start => BoardState::Waiting,
            BoardState::Active if !start || cancel => BoardState::Active,
            BoardState::Active if submit => BoardState::Submitted,
            BoardState::Active => BoardState::Started,
            BoardState::Started if cancel => BoardState::Cancelled,
            BoardState::Started if submit => BoardState::Submitted,
            BoardState::Started => BoardState::Started,
            BoardState::Cancelled if start => BoardState::Cancelled,
            BoardState::Submitted if start => BoardState::Submitted,
            _ => BoardState::Active,
        }
    }
}
