//! First lines of sections, and the type of a format: docs/DEFINITIONS.md, "Presence scripts".

ghost use Rattle.std.specs.Prelude.{◌≡◌, true, false, IsTrue, IsSome, Some, None, is_some};
ghost use Rattle.ra_richpresence.specs.Cut.{is_left};
ghost use Rattle.ra_richpresence.specs.Following.{SpellsUnlessFull};
ghost use Rattle.ra_richpresence.specs.Reading.{display_head_of, format_head_of, format_type_of, left_only, lookup_head_of, section_head_of};
ghost use Rattle.ra_richpresence.specs.Sections.{head_contents};

use crate::names::read_name;
use ra_condition::Fault;
use ra_text::Cursor;
use ra_value_format::Format;
use std::alloc::Global;

/// The first line of a lookup or of a format, with its name.
#[derive(Drop)]
pub enum Head {
    /// That of a lookup, with its name.
    Lookup(Vec<u8>),
    /// That of a format, with its name.
    Format(Vec<u8>),
}

/// The first line of a section that a line spells.
#[tactic(auto, unfolding(crate::specs::Reading::section_head_of))]
pub fn read_head(alloc: Global, line: &[u8]) -> Result<Head, Fault>
    requires { is_left line.now ≡ true }
    ensures { SpellsUnlessFull head_contents result (left_only section_head_of line.now) }
{
    match read_lookup_head(alloc, line) {
        Ok(name) => Ok(Head::Lookup(name)),
        Err(Fault::Memory) => Err(Fault::Memory),
        Err(Fault::Stop) => {
            let name = read_format_head(alloc, line)?;
            Ok(Head::Format(name))
        }
    }
}

// "Lookup:" name
#[tactic(auto, unfolding(crate::specs::Reading::lookup_head_of))]
fn read_lookup_head(alloc: Global, line: &[u8]) -> Result<Vec<u8>, Fault>
    ensures { SpellsUnlessFull (λ name. name.items) result (lookup_head_of line.now) }
{
    let mut cursor = Cursor::new(line, 0);
    cursor.literal(b"Lookup:")?;
    read_name(alloc, &mut cursor)
}

// "Format:" name
#[tactic(auto, unfolding(crate::specs::Reading::format_head_of))]
fn read_format_head(alloc: Global, line: &[u8]) -> Result<Vec<u8>, Fault>
    ensures { SpellsUnlessFull (λ name. name.items) result (format_head_of line.now) }
{
    let mut cursor = Cursor::new(line, 0);
    cursor.literal(b"Format:")?;
    read_name(alloc, &mut cursor)
}

/// The type of a format that a line spells.
#[tactic(auto, unfolding(crate::specs::Reading::format_type_of))]
pub fn read_format_type(alloc: Global, line: &[u8]) -> Result<Format, Fault>
    requires { is_left line.now ≡ true }
    ensures { SpellsUnlessFull (λ format. format) result (left_only format_type_of line.now) }
{
    let mut cursor = Cursor::new(line, 0);
    cursor.literal(b"FormatType=")?;
    let name = read_name(alloc, &mut cursor)?;
    Ok(Format::of_name(name.as_slice()))
}

/// The line opens the display.
#[tactic(auto, unfolding(crate::specs::Reading::display_head_of))]
pub fn is_display_head(line: &[u8]) -> bool
    requires { is_left line.now ≡ true }
    ensures { result ≡ is_some (left_only display_head_of line.now) }
{
    let mut cursor = Cursor::new(line, 0);
    cursor.literal(b"Display:").is_ok() && cursor.rest.is_empty()
}
