//! Why a set is refused.

use ra_text::OutOfMemory;
use std::error::Error;
use std::fmt;

/// What a limit counts: docs/DEFINITIONS.md, "Limits of a set".
#[derive(Clone, Copy, Debug, PartialEq, Eq)]
pub enum Which {
    /// The bytes of the file, at most 4,194,304.
    Bytes,
    /// The items, at most 16,384.
    Items,
    /// The conditions, legacy terms counted too, at most 65,536.
    Conditions,
    /// The macros of one display line, at most 256.
    Macros,
    /// The bytes of one lookup text after its escapes, at most 1,024.
    Lookup,
}

impl Which {
    ghost use Rattle.std.specs.Prelude.{◌≡◌};
    ghost use Rattle.ra_set.specs.Limits.{most_of};
    ghost use Rattle.ra_set.specs.Words.{word_of_limit};

    /// The most that the limit allows.
    pub fn most(self) -> u64
        ensures { result ≡ most_of self }
    {
        match self {
            Which::Bytes => 4_194_304,
            Which::Items => 16_384,
            Which::Conditions => 65_536,
            Which::Macros => 256,
            Which::Lookup => 1_024,
        }
    }

    // The word of the limit.
    fn word(self) -> &'static str
        ensures { result.now ≡ word_of_limit self }
    {
        match self {
            Which::Bytes => "bytes",
            Which::Items => "items",
            Which::Conditions => "conditions",
            Which::Macros => "macros",
            Which::Lookup => "lookup",
        }
    }
}

/// Why a set is refused: docs/DEFINITIONS.md, "Limits of a set".
#[derive(Clone, Copy, Debug, PartialEq, Eq)]
pub enum SetRefused {
    /// The bytes are outside the grammar, with the first bad place, in bytes from 0.
    Syntax { at: usize },
    /// The line, counted from 1, is the first that repeats an id of its own letter.
    DuplicateId { id: u32, line: u32 },
    /// A limit is passed, with how many there are.
    Limit { which: Which, found: u64 },
    /// There was no memory for the set.
    Memory,
}

/// Running out of memory is reported as such.
impl From<OutOfMemory> for SetRefused {
    ghost use Rattle.std.specs.Prelude.{◌≡◌};
    ghost use Rattle.ra_set.specs.declared.refused.SetRefused.TheVariants.{Memory};

    ghost from_gives = { λ _ why. why ≡ Memory };

    fn from(_error: OutOfMemory) -> SetRefused {
        SetRefused::Memory
    }
}

/// Written in the words of docs/DEFINITIONS.md, "Statuses".
impl fmt::Display for SetRefused {
    ghost use Rattle.std.specs.Prelude.{Some};
    ghost use Rattle.ra_set.specs.Words.{set_words};

    ghost output = { λ refused. Some (set_words refused) };

    fn fmt<W: fmt::Write>(&self, f: &mut fmt::Formatter<W>) -> fmt::Result {
        match self {
            SetRefused::Syntax { at } => write!(f, "syntax at {at}"),
            SetRefused::DuplicateId { id, line } => write!(f, "id {id} again on line {line}"),
            SetRefused::Limit { which, found } => {
                let word = which.word();
                let most = which.most();
                write!(f, "{word} {found} over {most}")
            }
            SetRefused::Memory => write!(f, "want of memory"),
        }
    }
}

impl Error for SetRefused {}
