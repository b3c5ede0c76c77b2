/// Which trigger of an item a warning is on.
#[derive(Clone, Copy, Debug, PartialEq, Eq)]
pub enum Place {
    Trigger,
    Start,
    Cancel,
    Submit,
}

/// What a warning says.
#[derive(Clone, Copy, Debug, PartialEq, Eq)]
pub enum Word {
    /// The comparison is false at every frame.
    Never,
    /// The comparison is true at every frame.
    Always,
    /// The hit target is reached at no frame.
    Unreachable,
    /// The achievement is never triggered.
    NoUnlock,
    /// The attempt never starts.
    NoStart,
}

/// A warning on a condition of an item, or on the item itself.
#[derive(Clone, Copy, Debug, PartialEq, Eq)]
pub struct Warning {
    pub item: u32,
    pub place: Place,
    pub group: u32,
    pub condition: u32,
    pub word: Word,
}
