//! Why a trace is refused.

use std::error::Error;
use std::fmt;

/// The reason of a refusal: docs/DEFINITIONS.md, "Trace file".
#[derive(Clone, Copy, Debug, PartialEq, Eq)]
pub enum Why {
    /// The file is shorter than a header, or its mark, version or size is not as said.
    Header,
    /// The first byte of the record is that of none.
    Kind,
    /// The file ends before the record is whole, or where one has to start.
    Cut,
    /// A write passes the end of the memory.
    PastMemory,
    /// A slot is above 15.
    Slot,
    /// A restore takes a slot that no save has filled.
    EmptySlot,
}

/// Written as the word of docs/DEFINITIONS.md, "Trace file".
impl fmt::Display for Why {
    ghost use Rattle.std.specs.Prelude.{Some};
    ghost use Rattle.ra_trace.specs.Refusals.{trace_word};

    ghost output = { λ why. Some (trace_word why) };

    fn fmt<W: fmt::Write>(&self, f: &mut fmt::Formatter<W>) -> fmt::Result {
        match self {
            Why::Header => write!(f, "header"),
            Why::Kind => write!(f, "kind"),
            Why::Cut => write!(f, "cut"),
            Why::PastMemory => write!(f, "memory"),
            Why::Slot => write!(f, "slot"),
            Why::EmptySlot => write!(f, "empty"),
        }
    }
}

impl Error for Why {}

/// Why no record is answered: docs/INTERNALS.md, "Reading a trace".
#[derive(Clone, Copy, Debug, PartialEq, Eq)]
pub enum TraceError {
    /// The place of the header or of the first bad record, in bytes from 0, and the reason.
    Refused { at: u64, why: Why },
    /// The limit of bytes was taken and one more is needed.
    TooLong,
    /// A read of the file failed, and its count of faults rose.
    Read,
}
