/// What stops a group at a frame.
#[derive(Clone, Copy, Debug, PartialEq, Eq)]
pub struct Stops {
    /// It is paused.
    pub paused: bool,
    /// It resets.
    pub reset: bool,
}
