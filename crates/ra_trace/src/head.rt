//! The first bytes of a record.

ghost use Rattle.std.specs.Prelude.{◌≡◌, ◌≤◌, length};
ghost use Rattle.ra_trace.specs.Entries.{entry_of};
ghost use Rattle.ra_trace.specs.Cutting.{front};
ghost use Rattle.ra_trace.specs.Heads.{head_length, head_of};

use crate::record::Record;

/// A record without the bytes of its write: docs/DEFINITIONS.md, "Trace file".
#[derive(Clone, Copy)]
pub enum Head {
    /// A write of this many bytes.
    Write { at: u32, count: u16 },
    Frame,
    Save { slot: u8 },
    Restore { slot: u8 },
    Show,
    End,
}

impl Head {
    /// How many bytes the record takes.
    #[inline(always)]
    pub fn length(self) -> usize
        ensures { result ≡ head_length self }
    {
        match self {
            Head::Write { count, .. } => 7 + usize::from(count),
            Head::Save { .. } | Head::Restore { .. } => 2,
            _ => 1,
        }
    }

    /// The record that stands at the front of these bytes, of which this is the head.
    #[inline(always)]
    pub fn record<'a>(self, bytes: &'a [u8]) -> Record<'a>
        requires head { self ≡ head_of (front bytes.now) }
        requires long { head_length self ≤ length bytes.now }
        ensures { entry_of result ≡ front bytes.now }
    {
        match self {
            Head::Write { at, count } => Record::Write {
                at,
                bytes: &bytes[7..7 + usize::from(count)],
            },
            Head::Frame => Record::Frame,
            Head::Save { slot } => Record::Save { slot },
            Head::Restore { slot } => Record::Restore { slot },
            Head::Show => Record::Show,
            Head::End => Record::End,
        }
    }
}
