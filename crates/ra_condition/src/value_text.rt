use crate::part::Part;

/// A value: docs/DEFINITIONS.md, "Values".
#[derive(Drop)]
pub struct ValueText {
    /// The parts in text order, at least one; the greatest of their numbers counts.
    pub parts: Vec<Part>,
}
