/// What the groups of a trigger say together at a frame: docs/DEFINITIONS.md, "Triggers over frames".
#[derive(Clone, Copy, Debug)]
pub struct Verdict {
    /// Some group resets.
    pub reset: bool,
    /// The trigger does not reset, and its core is valid, with some alt where there are alts.
    pub valid: bool,
    /// The core is paused, or there are alts and all are.
    pub paused: bool,
    /// It would be valid without its Trigger conditions, of which it has one at least.
    pub primed: bool,
    /// A clear brings the measured number to 0.
    pub from_hits: bool,
    /// The greatest number of the groups that give one.
    pub measured: Option<u32>,
}
