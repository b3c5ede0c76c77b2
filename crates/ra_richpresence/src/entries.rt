//! Lines of lookups: docs/DEFINITIONS.md, "Presence scripts".

ghost use Rattle.std.specs.Prelude.{◌≡◌, true};
ghost use Rattle.ra_condition.specs.Fault.{GivesUnlessFull};
ghost use Rattle.ra_richpresence.specs.Cut.{is_left};
ghost use Rattle.ra_richpresence.specs.Following.{SpellsUnlessFull};
ghost use Rattle.ra_richpresence.specs.Reading.{entry_of, keyed_entry_of, keys_at, left_only, other_entry_of};
ghost use Rattle.ra_richpresence.specs.Sections.{entry_contents};

use crate::keys::take_ranges;
use crate::lookup::Keys;
use crate::text::read_lookup_text;
use ra_condition::Fault;
use ra_text::Cursor;
use std::alloc::Global;

/// A line of a lookup: keys with their text, or the text of all other numbers.
#[derive(Drop)]
pub enum Entry {
    /// Keys with their text.
    Keyed(Keys),
    /// The text of all other numbers.
    Other(Vec<u8>),
}

/// The line of a lookup that a line spells.
#[tactic(auto, unfolding(crate::specs::Reading::entry_of))]
pub fn read_entry(alloc: Global, line: &[u8]) -> Result<Entry, Fault>
    requires { is_left line.now ≡ true }
    ensures { SpellsUnlessFull entry_contents result (left_only entry_of line.now) }
{
    let mut cursor = Cursor::new(line, 0);
    if cursor.is_at(b'*') {
        read_other_entry(alloc, &mut cursor)
    } else {
        read_keyed_entry(alloc, &mut cursor)
    }
}

// Keys and their text.
#[tactic(auto, unfolding(crate::specs::Reading::keyed_entry_of))]
fn read_keyed_entry(alloc: Global, cursor: &mut Cursor<'_>) -> Result<Entry, Fault>
    ensures { SpellsUnlessFull entry_contents result (keyed_entry_of cursor.old.rest.now) }
{
    let ranges = take_keys(alloc, cursor)?;
    let text = read_lookup_text(alloc, cursor)?;
    Ok(Entry::Keyed(Keys { ranges, text }))
}

// "*=" text
#[tactic(auto, unfolding(crate::specs::Reading::other_entry_of))]
fn read_other_entry(alloc: Global, cursor: &mut Cursor<'_>) -> Result<Entry, Fault>
    ensures { SpellsUnlessFull entry_contents result (other_entry_of cursor.old.rest.now) }
{
    cursor.literal(b"*=")?;
    let text = read_lookup_text(alloc, cursor)?;
    Ok(Entry::Other(text))
}

// range { "," range } "="
#[tactic(auto, unfolding(crate::specs::Reading::keys_at))]
fn take_keys(alloc: Global, cursor: &mut Cursor<'_>) -> Result<Vec<(u32, u32)>, Fault>
    ensures { GivesUnlessFull (λ ranges. ranges.items) result cursor.new.rest.now (keys_at cursor.old.rest.now) }
{
    let ranges = take_ranges(alloc, cursor)?;
    cursor.byte(b'=')?;
    Ok(ranges)
}
