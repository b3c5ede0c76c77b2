/// What a trigger as a whole is at a frame: docs/DEFINITIONS.md, "Account of an achievement".
#[derive(Clone, Copy, Debug, PartialEq, Eq)]
pub struct Moment {
    /// It resets.
    pub reset: bool,
    /// It is paused.
    pub paused: bool,
    /// It was waiting and is valid.
    pub waited: bool,
}
