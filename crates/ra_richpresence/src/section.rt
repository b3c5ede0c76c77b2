//! Sections of a script: docs/DEFINITIONS.md, "Presence scripts".

ghost use Rattle.std.specs.Prelude.{◌≡◌};
ghost use Rattle.ra_richpresence.specs.Following.{MovesAsUnlessFull, MovesUnlessFull, bytes_of};
ghost use Rattle.ra_richpresence.specs.Reading.{entries_at, format_type_of, left_only, section_behind_at};
ghost use Rattle.ra_richpresence.specs.Sections.{IsLookupOf, IsSectionOf, head_contents};
ghost use Rattle.ra_text.specs.Reading.{one_at};

use crate::entries::read_entry;
use crate::heads::{Head, read_format_type};
use crate::lines::Lines;
use crate::read_lookup::ReadLookup;
use ra_condition::Fault;
use ra_value_format::Format;
use std::alloc::Global;

/// A lookup with its long text, or a format under its name.
#[derive(Drop)]
pub enum Section {
    /// A lookup.
    Lookup(ReadLookup),
    /// A format under its name.
    Format(Vec<u8>, Format),
}

/// What follows the first line of a section. A text is long where it passes `most` bytes.
#[tactic(auto, unfolding(crate::specs::Reading::section_behind_at))]
pub fn take_section(
    alloc: Global,
    head: Head,
    most: u64,
    lines: &mut Lines<'_>,
) -> Result<Section, Fault>
    ensures { MovesAsUnlessFull (λ section s. IsSectionOf most s section) result lines.new.rest.now (section_behind_at (head_contents head) (bytes_of lines.old.rest.now)) }
{
    match head {
        Head::Lookup(name) => {
            let found = take_lookup(alloc, name, most, lines)?;
            Ok(Section::Lookup(found))
        }
        Head::Format(name) => {
            let format = take_format_type(alloc, lines)?;
            Ok(Section::Format(name, format))
        }
    }
}

// The type of a format.
fn take_format_type(alloc: Global, lines: &mut Lines<'_>) -> Result<Format, Fault>
    ensures { MovesUnlessFull (λ format. format) result lines.new.rest.now (one_at (left_only format_type_of) (bytes_of lines.old.rest.now)) }
{
    match lines.rest {
        [line, after @ ..] => {
            let format = read_format_type(alloc, line.bytes)?;
            lines.rest = after;
            Ok(format)
        }
        [] => Err(Fault::Stop),
    }
}

// The lines of a lookup, as many as there are.
fn take_lookup(
    alloc: Global,
    name: Vec<u8>,
    most: u64,
    lines: &mut Lines<'_>,
) -> Result<ReadLookup, Fault>
    ensures { MovesAsUnlessFull (λ found entries. IsLookupOf most name.items entries found) result lines.new.rest.now (entries_at (bytes_of lines.old.rest.now)) }
{
    let mut found = ReadLookup::new(alloc, name);
    while let [line, after @ ..] = lines.rest {
        match read_entry(alloc, line.bytes) {
            Ok(entry) => found.add(entry, most)?,
            Err(Fault::Memory) => return Err(Fault::Memory),
            Err(Fault::Stop) => break,
        }
        lines.rest = after;
    }
    Ok(found)
}

impl Section {
    ghost use Rattle.ra_richpresence.specs.Sections.{section_name};

    /// The name of the lookup or of the format.
    pub fn name(&self) -> &Vec<u8>
        ensures { result.now.items ≡ section_name self.now }
    {
        match self {
            Section::Lookup(found) => &found.lookup.name,
            Section::Format(name, _) => name,
        }
    }
}
