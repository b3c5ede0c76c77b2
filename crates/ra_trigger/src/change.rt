use crate::state::State;

/// What a frame did to an achievement: docs/DEFINITIONS.md, "Achievement states".
#[derive(Clone, Copy, Debug, PartialEq, Eq)]
pub struct Change {
    /// The state before the frame.
    pub before: State,
    /// The state after the frame.
    pub after: State,
    /// The new measured number, exactly where it differs from the old one.
    pub measured: Option<u32>,
}
