//! Why a set has no normal text.

use ra_set::{SetRefused, Which};
use ra_text::OutOfMemory;
use std::error::Error;
use std::fmt;

/// Why a normal text is refused.
#[derive(Clone, Copy, Debug, PartialEq, Eq)]
pub enum NormalRefused {
    /// The text has more bytes or conditions than a set may have.
    Limit { which: Which, found: u64 },
    /// There was no memory for the text.
    Memory,
}

/// Running out of memory is reported as such.
impl From<OutOfMemory> for NormalRefused {
    ghost use Rattle.std.specs.Prelude.{◌≡◌};
    ghost use Rattle.ra_normal.specs.declared.refused.NormalRefused.TheVariants.{Memory};

    ghost from_gives = { λ _ why. why ≡ Memory };

    fn from(_error: OutOfMemory) -> NormalRefused {
        NormalRefused::Memory
    }
}

/// Written in the words of docs/DEFINITIONS.md, "Statuses".
impl fmt::Display for NormalRefused {
    ghost use Rattle.std.specs.Prelude.{Some};
    ghost use Rattle.ra_normal.specs.Words.{normal_words};

    ghost output = { λ refused. Some (normal_words refused) };

    fn fmt<W: fmt::Write>(&self, f: &mut fmt::Formatter<W>) -> fmt::Result {
        match *self {
            NormalRefused::Limit { which, found } => {
                let limit = SetRefused::Limit { which, found };
                write!(f, "{limit}")
            }
            NormalRefused::Memory => write!(f, "want of memory"),
        }
    }
}

impl Error for NormalRefused {}
