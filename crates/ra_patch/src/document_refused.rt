//! Why nothing is left of a document: docs/DEFINITIONS.md, "What is left of a document".

use ra_text::OutOfMemory;

/// A field of the root of a document: docs/DEFINITIONS.md, "What is left of a document".
#[derive(Clone, Copy, Debug, PartialEq, Eq)]
pub enum RootField {
    /// `PatchData`; a root that is no object and one without lists count as this field.
    PatchData,
    /// `Sets` of the patch.
    Sets,
    /// `Achievements` of the patch or of an element of its `Sets`.
    Achievements,
    /// `Leaderboards` of the patch or of an element of its `Sets`.
    Leaderboards,
}

/// Why nothing is left of a document: docs/DEFINITIONS.md, "What is left of a document".
#[derive(Clone, Copy, Debug, PartialEq, Eq)]
pub enum DocumentRefused {
    /// The document has more than 16,777,216 bytes, with how many there are.
    Bytes { found: u64 },
    /// The document is no JSON.
    NotJson,
    /// The document has no patch, with the first field that is missing or wrong.
    Root { field: RootField },
    /// Out of memory.
    Memory,
}

/// Running out of memory is reported as such.
impl From<OutOfMemory> for DocumentRefused {
    ghost use Rattle.std.specs.Prelude.{◌≡◌};
    ghost use Rattle.ra_patch.specs.declared.document_refused.DocumentRefused.TheVariants.{Memory};

    ghost from_gives = { λ _ why. why ≡ Memory };

    fn from(_error: OutOfMemory) -> Self {
        DocumentRefused::Memory
    }
}
