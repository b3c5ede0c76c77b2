//! Reasons as numbers, for C.
ghost use Rattle.std.specs.Prelude.{◌≡◌};
ghost use Rattle.ra_judge.specs.Reasons.{document_reason, kind_of_limit, number_of_field, progress_reason, reason_of, set_reason, syntax_reason};

use crate::place::place_in;
use ra_patch::{DocumentRefused, RootField};
use ra_progress::ProgressRefused;
use ra_set::{SetRefused, Which};

/// Why a text, a document or progress bytes are refused: docs/DEFINITIONS.md, "Calls from C".
///
/// In C it is `meerkat_refusal`. A number that a kind does not have is 0.
#[repr(C)]
#[derive(Clone, Copy, Debug, PartialEq, Eq)]
pub struct Refusal {
    /// Which reason: 1 to 7 of a text, 11 to 17 of progress bytes, 21 to 23 of a document.
    pub kind: u32,
    /// The id that is repeated, or the field of a document.
    pub id: u32,
    /// The first bad place in bytes from 0.
    pub at: u64,
    /// What the file has, such as its length.
    pub found: u64,
    /// What it should have, or the most that it may have.
    pub wanted: u64,
    /// The line of the place, from 1.
    pub line: u64,
    /// The byte of the place in its line, from 1.
    pub column: u64,
}

// The kind of a passed limit.
fn limit_kind(which: Which) -> u32
    ensures { result ≡ kind_of_limit which }
{
    match which {
        Which::Bytes => 3,
        Which::Items => 4,
        Which::Conditions => 5,
        Which::Macros => 6,
        Which::Lookup => 7,
    }
}

/// The reason why a text is no set.
pub fn of_set(text: &[u8], why: SetRefused) -> Refusal
    ensures { result ≡ set_reason text.now why }
{
    match why {
        SetRefused::Syntax { at } => of_syntax(text, at),
        SetRefused::DuplicateId { id, line } => Refusal {
            line: line as u64,
            ..reason(2, id, 0, 0, 0)
        },
        SetRefused::Limit { which, found } => reason(limit_kind(which), 0, 0, found, which.most()),
        SetRefused::Memory => reason(0, 0, 0, 0, 0),
    }
}

/// The reason for a text that is outside its grammar from a place on.
pub fn of_syntax(text: &[u8], at: usize) -> Refusal
    ensures { result ≡ syntax_reason text.now at }
{
    let place = place_in(text, at);
    Refusal {
        line: place.line,
        column: place.column,
        ..reason(1, 0, at as u64, 0, 0)
    }
}

// The reason for a text that is too long.
pub(crate) fn too_long(found: usize, most: usize) -> Refusal
    ensures { result ≡ reason_of 3 0 0 found most }
{
    reason(3, 0, 0, found as u64, most as u64)
}

// The number of a field of a document.
fn field_number(field: RootField) -> u32
    ensures { result ≡ number_of_field field }
{
    match field {
        RootField::PatchData => 1,
        RootField::Sets => 2,
        RootField::Achievements => 3,
        RootField::Leaderboards => 4,
    }
}

/// The reason why nothing is left of a document.
pub fn of_document(why: DocumentRefused) -> Refusal
    ensures { result ≡ document_reason why }
{
    match why {
        DocumentRefused::Bytes { found } => reason(21, 0, 0, found, 16_777_216),
        DocumentRefused::NotJson => reason(22, 0, 0, 0, 0),
        DocumentRefused::Root { field } => reason(23, field_number(field), 0, 0, 0),
        DocumentRefused::Memory => reason(0, 0, 0, 0, 0),
    }
}

/// The reason why bytes are no progress of a set. The sums and digests are not told.
pub fn of_progress(why: ProgressRefused) -> Refusal
    ensures { result ≡ progress_reason why }
{
    match why {
        ProgressRefused::WrongLength { wanted, found } => reason(11, 0, 0, found, wanted),
        ProgressRefused::WrongMark { found: _ } => reason(12, 0, 0, 0, 0),
        ProgressRefused::WrongVersion { found } => reason(13, 0, 0, found as u64, 0),
        ProgressRefused::WrongSum { kept: _, found: _ } => reason(14, 0, 0, 0, 0),
        ProgressRefused::OtherSet {
            wanted: _,
            found: _,
        } => reason(15, 0, 0, 0, 0),
        ProgressRefused::BadEntry { at, wanted, found } => reason(
            16,
            0,
            at,
            found as u64,
            wanted as u64,
        ),
        ProgressRefused::BadState { at, found } => reason(17, 0, at, found as u64, 0),
    }
}

fn reason(kind: u32, id: u32, at: u64, found: u64, wanted: u64) -> Refusal
    ensures { result ≡ reason_of kind id at found wanted }
{
    Refusal {
        kind,
        id,
        at,
        found,
        wanted,
        line: 0,
        column: 0,
    }
}
