/// A row at which the hits of a condition changed, and the hits after it.
#[derive(Clone, Copy, Debug, PartialEq, Eq)]
pub struct Event {
    pub row: u32,
    pub hits: u32,
}

/// The events of a condition.
#[derive(Drop)]
pub struct Events {
    pub list: Vec<Event>,
}

/// Why an unlock came: docs/DEFINITIONS.md, "Explanations".
#[derive(Drop)]
pub struct Explanation {
    /// The row of the unlock.
    pub last: u32,
    /// The row from which on the hits counted.
    pub since: u32,
    /// The achievement waited before that row.
    pub waited: bool,
    /// The events of each condition, core first.
    pub events: Vec<Events>,
}
