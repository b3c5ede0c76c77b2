//! Lookups and formats of a script: docs/DEFINITIONS.md, "Presence scripts".

ghost use Rattle.std.specs.Prelude.{ℕ, List};
ghost use Rattle.ra_richpresence.specs.Following.{bytes_of};
ghost use Rattle.ra_richpresence.specs.Grammar.{SectionContents};
ghost use Rattle.ra_richpresence.specs.Kept.{Keeps, KeepsUnlessFull};
ghost use Rattle.ra_richpresence.specs.Reading.{sections_at};

use crate::heads::read_head;
use crate::kept::Kept;
use crate::lines::Lines;
use crate::section::take_section;
use ra_condition::Fault;
use std::alloc::Global;

/// Reads lookups and formats, as many as there are, and keeps those whose name is not taken.
pub fn take_sections(alloc: Global, kept: &mut Kept, lines: &mut Lines<'_>) -> Result<(), Fault>
    ensures { (most : ℕ) (before : List SectionContents) → Keeps most before kept.old
        → KeepsUnlessFull most before result kept.new lines.new.rest.now (sections_at (bytes_of lines.old.rest.now)) }
{
    while let [line, after @ ..] = lines.rest {
        let head = match read_head(alloc, line.bytes) {
            Ok(head) => head,
            Err(Fault::Memory) => return Err(Fault::Memory),
            Err(Fault::Stop) => break,
        };
        lines.rest = after;
        let section = take_section(alloc, head, kept.most, lines)?;
        kept.add(section)?;
    }
    Ok(())
}
