//! What is left out of a document: docs/DEFINITIONS.md, "What is left of a document".

use crate::refused::PatchField;

/// Where in a document something is left out: docs/DEFINITIONS.md, "What is left of a document".
#[derive(Clone, Copy, Debug, PartialEq, Eq)]
pub enum LeftList {
    /// The achievements.
    Achievements,
    /// The leaderboards.
    Leaderboards,
    /// The presence string.
    Presence,
}

/// Why something is left out: docs/DEFINITIONS.md, "What is left of a document".
#[derive(Clone, Copy, Debug, PartialEq, Eq)]
pub enum LeftCause {
    /// A field is missing or wrong, the first such.
    Field(PatchField),
    /// A text would end its line or its word.
    Break,
    /// A text is outside its grammar, with its first bad place, in bytes from its start.
    Syntax { at: usize },
    /// An item of its list that stands before it and stays has its id.
    Again,
}

/// One thing that is left out: docs/DEFINITIONS.md, "What is left of a document".
#[derive(Clone, Copy, Debug, PartialEq, Eq)]
pub struct LeftOut {
    /// Where it stands.
    pub list: LeftList,
    /// Which item of its whole list it is, counted from 0; 0 for the presence string.
    pub index: usize,
    /// Its id, where it has one.
    pub id: Option<u32>,
    /// Why it is left out.
    pub cause: LeftCause,
}
