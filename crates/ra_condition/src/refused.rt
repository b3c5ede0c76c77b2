/// Why a text is not read: docs/DEFINITIONS.md, "First bad place".
#[derive(Clone, Copy, Debug, PartialEq, Eq)]
pub enum Refused {
    /// The text is outside the grammar, with its first bad place, in bytes from 0.
    Syntax { at: usize },
    /// There was no memory for what the text spells.
    Memory,
}
