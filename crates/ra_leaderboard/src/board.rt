use crate::change::BoardChange;
use crate::state::BoardState;
use std::marker::Model;

/// The attempt at a leaderboard: its state between frames.
#[derive(Drop)]
pub struct Board {
    state: BoardState,
}

impl Model for Board {
    ghost use Rattle.ra_leaderboard.specs.declared.state.BoardState.{BoardState};

    ghost Value = { BoardState };

    ghost view = { λ b. b.state };
}

impl Board {
    ghost use Rattle.std.specs.Prelude.{◌≡◌};
    ghost use Rattle.ra_leaderboard.specs.declared.state.BoardState.TheVariants.{Waiting};
    ghost use Rattle.ra_leaderboard.specs.States.{state_after};

    /// An attempt that waits.
    pub fn new() -> Self
        ensures { result ≡ Waiting }
    {
        Board {
            state: BoardState::Waiting,
        }
    }

    /// Steps the attempt by the truths of its three triggers at a frame: docs/DEFINITIONS.md,
    /// "Leaderboard states".
    pub fn step(&mut self, start: bool, cancel: bool, submit: bool) -> BoardChange
        ensures before { result.before ≡ self.old }
        ensures after { result.after ≡ state_after self.old start cancel submit }
        ensures kept { self.new ≡ result.after }
    {
        let before = self.state;
        let after = before.after(start, cancel, submit);
        self.state = after;
        BoardChange { before, after }
    }

    /// The state of the attempt.
    pub fn state(&self) -> BoardState
        ensures { result ≡ self.now }
    {
        self.state
    }

    /// Takes back the state that a progress file keeps.
    pub fn put_back(&mut self, state: BoardState)
        ensures { self.new ≡ state }
    {
        self.state = state;
    }
}
