/// What a group says at a frame: docs/DEFINITIONS.md, "Group outcome".
#[derive(Clone, Copy, Debug, PartialEq, Eq)]
pub struct Outcome {
    /// Some PauseIf is valid.
    pub paused: bool,
    /// The group is not paused, does not reset, and each condition that has to be valid is.
    pub valid: bool,
    /// The group would be valid without its Trigger conditions.
    pub primed: bool,
    /// The group is not paused, and some ResetIf is valid.
    pub reset: bool,
    /// The measured number; none where the group is paused or measures nothing.
    pub measured: Option<u32>,
    /// A measured number of the group is taken from hits, paused or not.
    pub from_hits: bool,
}
