/// What a name is looked up among: docs/DEFINITIONS.md, "Progress file".
#[derive(Clone, Copy, Debug, PartialEq, Eq)]
pub enum Named {
    /// The cells of the set.
    Cell,
    /// The tracked masks of the set.
    Prior,
    /// The entries that the set writes: its items, and then its script.
    Entry,
}
