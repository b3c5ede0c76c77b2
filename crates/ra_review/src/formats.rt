//! Names of formats that no format has: docs/DEFINITIONS.md, "Review of a set".

ghost use Rattle.std.specs.Prelude.{◌≡◌, ◌++◌, List, ℕ, OnOk, bytes_eq, length};
ghost use Rattle.ra_set.specs.Contents.{item_contents};
ghost use Rattle.ra_review.specs.Lines.{before_space, behind_space, format_notices, format_text, is_format_name};
ghost use Rattle.ra_review.specs.Reporting.{AreEntries, is_value};

use crate::entries::Entries;
use ra_set::Item;
use ra_text::OutOfMemory;
use ra_value_format::Format;

/// Adds the notice on the format of an item's line, where its name is none.
pub(crate) fn put_format_notice(
    notices: &mut Entries,
    line: &[u8],
    item: &Item,
) -> Result<(), OutOfMemory>
    ensures { OnOk result ((entries : List (List ℕ)) → AreEntries notices.old entries
        → AreEntries notices.new (entries ++ format_notices line.now (item_contents item.now))) }
{
    match item {
        Item::Achievement { .. } => Ok(()),
        Item::Leaderboard { id, .. } => {
            let name = format_text(line);
            if is_format_name(name) {
                return Ok(());
            }
            notices.notice_format(*id, name)
        }
    }
}

// What stands between the second and the third space of a line.
fn format_text(line: &[u8]) -> &[u8]
    ensures { result.now ≡ format_text line.now }
{
    before_space(behind_space(behind_space(line)))
}

// What stands before the first space.
fn before_space(text: &[u8]) -> &[u8]
    ensures { result.now ≡ before_space text.now }
{
    let (before, _) = text.split_at(space_at(text));
    before
}

// What stands after the first space.
fn behind_space(text: &[u8]) -> &[u8]
    ensures { result.now ≡ behind_space text.now }
{
    let (_, behind) = text.split_at(space_at(text));
    match behind {
        [_, after @ ..] => after,
        [] => behind,
    }
}

// How many bytes stand before the first space.
fn space_at(text: &[u8]) -> usize
    ensures { result ≡ length (before_space text.now) }
{
    let mut length = 0;
    'bytes: while length < text.len() && text[length] != b' ' {
        length += 1;
    }
    length
}

// The name is that of a format.
fn is_format_name(name: &[u8]) -> bool
    ensures { result ≡ is_format_name name.now }
{
    is_text(name, b"VALUE") || !is_value(Format::of_name(name))
}

// The format is that of names that no other format has.
fn is_value(format: Format) -> bool
    ensures { result ≡ is_value format }
{
    matches!(format, Format::Value)
}

/// The text is this one, byte for byte.
pub(crate) fn is_text(text: &[u8], wanted: &[u8]) -> bool
    ensures { result ≡ bytes_eq wanted.now text.now }
{
    wanted == text
}
