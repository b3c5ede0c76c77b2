use crate::hex::Hex;
use std::error::Error;
use std::fmt;

/// Why progress bytes are refused: docs/DEFINITIONS.md, "Progress file".
#[derive(Clone, Copy, Debug, PartialEq, Eq)]
pub enum ProgressRefused {
    /// The file has another length than its version, counts and entries want, in bytes.
    WrongLength { wanted: u64, found: u64 },
    /// The first four bytes are not `RAPG`.
    WrongMark { found: [u8; 4] },
    /// Byte 4 is not 1, 2 or 3.
    WrongVersion { found: u8 },
    /// The sum that the file keeps is not the MD5 found of its other bytes.
    WrongSum { kept: [u8; 16], found: [u8; 16] },
    /// The digest in the file is not that of the shape, and no entry has a name of the set's own.
    OtherSet { wanted: [u8; 16], found: [u8; 16] },
    /// The first entry with a name of the set's own whose block has another length. The place is
    /// that of its length, in bytes from 0.
    BadEntry { at: u64, wanted: u32, found: u32 },
    /// The first state byte or shown index that is not in its table, with its place in bytes from
    /// 0.
    BadState { at: u64, found: u32 },
}

/// Written in the words of docs/DEFINITIONS.md, "Statuses".
impl fmt::Display for ProgressRefused {
    ghost use Rattle.std.specs.Prelude.{Some};
    ghost use Rattle.ra_progress.specs.Refusals.{progress_words};

    ghost output = { λ refused. Some (progress_words refused) };

    fn fmt<W: fmt::Write>(&self, f: &mut fmt::Formatter<W>) -> fmt::Result {
        match self {
            ProgressRefused::WrongLength { wanted, found } => {
                write!(f, "length {found} wanted {wanted}")
            }
            ProgressRefused::WrongMark { found } => {
                let mark = Hex(found);
                write!(f, "mark {mark} wanted 52415047")
            }
            ProgressRefused::WrongVersion { found } => write!(
                f,
                "version {found} wanted 1, 2 or 3"
            ),
            ProgressRefused::WrongSum { kept, found } => {
                let said = Hex(kept);
                let sum = Hex(found);
                write!(f, "sum {said} is {sum}")
            }
            ProgressRefused::OtherSet { wanted, found } => {
                let own = Hex(wanted);
                let other = Hex(found);
                write!(f, "set {other} wanted {own}")
            }
            ProgressRefused::BadEntry { at, wanted, found } => {
                write!(f, "entry {found} wanted {wanted} at {at}")
            }
            ProgressRefused::BadState { at, found } => write!(f, "state {found} at {at}"),
        }
    }
}

impl Error for ProgressRefused {}
