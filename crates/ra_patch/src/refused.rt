//! Why a document gives no set.

use ra_set::SetRefused;
use std::alloc::{AllocError, AllocFailed};
use std::error::Error;
use std::fmt;

// The most bytes of a document.
pub(crate) const MOST_BYTES: usize = 16_777_216;

/// Where in a document a field or an item stands: docs/DEFINITIONS.md, "Sets from JSON".
#[derive(Clone, Copy, Debug, PartialEq, Eq)]
pub enum PatchList {
    /// The document itself, with its object `PatchData`.
    Root,
    /// The array `Achievements`.
    Achievements,
    /// The array `Leaderboards`.
    Leaderboards,
}

impl PatchList {
    ghost use Rattle.std.specs.Prelude.{◌≡◌};
    ghost use Rattle.ra_patch.specs.Words.{list_word};

    // The word of the list.
    fn word(self) -> &'static str
        ensures { result.now ≡ list_word self }
    {
        match self {
            PatchList::Root => "root",
            PatchList::Achievements => "achievements",
            PatchList::Leaderboards => "leaderboards",
        }
    }
}

/// A field of a document: docs/DEFINITIONS.md, "Sets from JSON".
#[derive(Clone, Copy, Debug, PartialEq, Eq)]
pub enum PatchField {
    /// `PatchData` of the root; a root that is no object counts as this field.
    PatchData,
    /// `Achievements` of the root's `PatchData`.
    Achievements,
    /// `Leaderboards` of the root's `PatchData`.
    Leaderboards,
    /// `RichPresencePatch` of the root's `PatchData`.
    RichPresencePatch,
    /// `ID` of an item; an item that is no object counts as this field.
    Id,
    /// `MemAddr` of an achievement.
    MemAddr,
    /// `Mem` of a leaderboard.
    Mem,
    /// `Format` of a leaderboard.
    Format,
}

impl PatchField {
    ghost use Rattle.std.specs.Prelude.{◌≡◌};
    ghost use Rattle.ra_patch.specs.Words.{field_word};

    /// The name of the field: docs/DEFINITIONS.md, "Sets from JSON".
    pub fn word(self) -> &'static str
        ensures { result.now ≡ field_word self }
    {
        match self {
            PatchField::PatchData => "PatchData",
            PatchField::Achievements => "Achievements",
            PatchField::Leaderboards => "Leaderboards",
            PatchField::RichPresencePatch => "RichPresencePatch",
            PatchField::Id => "ID",
            PatchField::MemAddr => "MemAddr",
            PatchField::Mem => "Mem",
            PatchField::Format => "Format",
        }
    }
}

/// Why a document gives no set: docs/DEFINITIONS.md, "Sets from JSON".
#[derive(Clone, Copy, Debug, PartialEq, Eq)]
pub enum PatchRefused {
    /// The document has more than 16,777,216 bytes, with how many there are.
    Bytes {
        found: u64,
    },
    /// The document is no JSON.
    NotJson,
    /// A field is missing or wrong, the first such. The index counts the items of the list from 0,
    /// and is 0 for the root.
    Field {
        list: PatchList,
        index: u32,
        field: PatchField,
    },
    /// A text of an item would end its line or its word, the first such item, counted from 0.
    Break {
        list: PatchList,
        index: u32,
    },
    /// The set file is refused, never for running out of memory.
    Set(SetRefused),
    /// There was no memory.
    Memory,
}

/// Written in the words of docs/DEFINITIONS.md, "Statuses".
impl fmt::Display for PatchRefused {
    ghost use Rattle.std.specs.Prelude.{Some};
    ghost use Rattle.ra_patch.specs.Words.{document_words};

    ghost output = { λ refused. Some (document_words refused) };

    fn fmt<W: fmt::Write>(&self, f: &mut fmt::Formatter<W>) -> fmt::Result {
        match self {
            PatchRefused::Bytes { found } => write!(f, "bytes {found} over {MOST_BYTES}"),
            PatchRefused::NotJson => write!(f, "json"),
            PatchRefused::Field { list, index, field } => {
                let word = list.word();
                let name = field.word();
                write!(f, "{word} {index} {name}")
            }
            PatchRefused::Break { list, index } => {
                let word = list.word();
                write!(f, "{word} {index} break")
            }
            PatchRefused::Set(why) => write!(f, "{why}"),
            PatchRefused::Memory => write!(f, "want of memory"),
        }
    }
}

impl Error for PatchRefused {}

impl From<AllocError> for PatchRefused {
    ghost use Rattle.std.specs.Prelude.{◌≡◌};
    ghost use Rattle.ra_patch.specs.declared.refused.PatchRefused.TheVariants.{Memory};

    ghost from_gives = { λ _ why. why ≡ Memory };

    fn from(_error: AllocError) -> Self {
        PatchRefused::Memory
    }
}

impl<T: Drop> From<AllocFailed<T>> for PatchRefused {
    ghost use Rattle.std.specs.Prelude.{◌≡◌};
    ghost use Rattle.ra_patch.specs.declared.refused.PatchRefused.TheVariants.{Memory};

    ghost from_gives = { λ _ why. why ≡ Memory };

    fn from(_error: AllocFailed<T>) -> Self {
        PatchRefused::Memory
    }
}
