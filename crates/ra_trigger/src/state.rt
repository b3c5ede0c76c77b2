use crate::verdict::Verdict;

/// The state of an achievement: docs/DEFINITIONS.md, "Achievement states".
#[derive(Clone, Copy, Debug, PartialEq, Eq)]
pub enum State {
    /// Byte 0: it has not been false yet.
    Waiting,
    /// Byte 1: it may trigger.
    Active,
    /// Byte 2: it is paused.
    Paused,
    /// Byte 3: only its Trigger conditions are missing.
    Primed,
    /// Byte 4: it has triggered, and no frame changes it.
    Triggered,
}

impl State {
    ghost use Rattle.std.specs.Prelude.{◌≡◌};
    ghost use Rattle.ra_trigger.specs.States.{state_after, state_byte, state_of, is_cleared};

    /// The byte that stands for the state: docs/DEFINITIONS.md, "Achievement states".
    pub fn byte(self) -> u8
        ensures { result ≡ state_byte self }
    {
        match self {
            State::Waiting => 0,
            State::Active => 1,
            State::Paused => 2,
            State::Primed => 3,
            State::Triggered => 4,
        }
    }

    /// The state that a byte stands for; every byte from 4 on stands for `Triggered`.
    pub fn of_byte(byte: u8) -> State
        ensures { result ≡ state_of byte }
    {
        match byte {
            0 => State::Waiting,
            1 => State::Active,
            2 => State::Paused,
            3 => State::Primed,
            _ => State::Triggered,
        }
    }

    /// The state after a frame.
    pub(crate) fn after(self, now: &Verdict) -> Self
        ensures { result ≡ state_after self now.now.reset now.now.valid now.now.paused now.now.primed }
    {
        match self {
            State::Triggered => State::Triggered,
            _ if now.reset => {
                if now.paused {
                    State::Paused
                } else {
                    State::Active
                }
            }
            State::Waiting if now.valid => State::Waiting,
            _ if now.valid => State::Triggered,
            _ if now.paused => State::Paused,
            _ if now.primed => State::Primed,
            _ => State::Active,
        }
    }

    /// Whether the frame clears the hits: a reset, or a valid trigger that still waits.
    pub(crate) fn is_cleared(self, now: &Verdict) -> bool
        ensures { result ≡ is_cleared self now.now.reset now.now.valid }
    {
        now.reset || matches!(self, State::Waiting) && now.valid
    }
}
