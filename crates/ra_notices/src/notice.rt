use ra_lint::Place;

/// What a notice says of a condition, or of the trigger of an achievement: docs/DEFINITIONS.md,
/// "Review of a set".
#[derive(Clone, Copy, Debug, PartialEq, Eq)]
pub enum Word {
    /// The chain has no end.
    OpenChain,
    /// An earlier condition of the group is the same.
    Twice,
    /// A cell stands on the right where a number was meant, as its address says.
    MemoryRight,
    /// A ResetIf whose comparison always holds.
    ResetsAlways,
    /// A PauseIf whose comparison always holds.
    PausesAlways,
    /// There is a MeasuredIf, and nothing that is measured.
    NoMeasured,
    /// The trigger has no condition.
    Empty,
    /// No condition has to be valid.
    NoNeed,
    /// The achievement is never triggered.
    NoUnlock,
}

/// A notice on a condition of an item, or on its trigger, whose group and condition are then 0.
#[derive(Clone, Copy, Debug, PartialEq, Eq)]
pub struct Notice {
    /// The trigger of the item.
    pub place: Place,
    /// The group, the core being 0.
    pub group: usize,
    /// The condition, from 0.
    pub condition: usize,
    /// What is noticed.
    pub word: Word,
}
