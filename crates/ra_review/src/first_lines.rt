//! The first line of each id: docs/DEFINITIONS.md, "Review of a set".

ghost use Rattle.std.specs.Prelude.{◌≡◌, ◌<◌, ◌==◌, ℕ, None, Some, IfOk, OnOk, if◌then◌else◌, length, slice_index_or, unwrap_or};
ghost use Rattle.std.specs.BTreeMap.{get};
ghost use Rattle.std.specs.Ordering.{nat_cmp};

use ra_text::OutOfMemory;
use std::alloc::Global;
use std::collections::BTreeMap;

/// Ids below this stand in a row by their number.
const LOW_IDS: u32 = 1_048_576;

/// The number of the first line of each id.
///
/// Ids are mostly low: these are found by their place in a row, and the others by their order.
#[derive(Drop)]
pub(crate) struct FirstLines {
    low: Vec<Option<usize>>,
    high: BTreeMap<u32, usize>,
}

impl FirstLines {
    ghost use Rattle.std.specs.Prelude.{◌≡◌, ℕ, None, IfOk};
    ghost use Rattle.ra_review.specs.FirstLines.{NotesLine, line_of};

    /// No id.
    pub fn none(alloc: Global) -> Self
        ensures { (id : ℕ) → line_of result id ≡ None }
    {
        FirstLines {
            low: Vec::new(alloc),
            high: BTreeMap::new(alloc),
        }
    }

    /// Notes the line of an id, and gives the first line that was noted for it, which stays noted.
    pub fn note(&mut self, id: u32, number: usize) -> Result<Option<usize>, OutOfMemory>
        ensures { IfOk result (λ first. NotesLine self.old id number first self.new) }
    {
        if id < LOW_IDS {
            note_low(&mut self.low, id as usize, number)
        } else {
            note_high(&mut self.high, id, number)
        }
    }
}

// Notes the line of an id below the bound.
fn note_low(
    lines: &mut Vec<Option<usize>>,
    id: usize,
    number: usize,
) -> Result<Option<usize>, OutOfMemory>
    ensures first { IfOk result (λ first. first ≡ slice_index_or lines.old.items id None) }
    ensures noted { IfOk result (λ first. (other : ℕ) → slice_index_or lines.new.items other None
        ≡ (if id == other then Some (unwrap_or first number) else slice_index_or lines.old.items other None)) }
{
    make_room(lines, id)?;
    let first = lines[id];
    lines[id] = Some(first.unwrap_or(number));
    Ok(first)
}

// Makes the row long enough for an id.
fn make_room(lines: &mut Vec<Option<usize>>, id: usize) -> Result<(), OutOfMemory>
    ensures room { OnOk result (id < length lines.new.items) }
    ensures same { OnOk result ((other : ℕ) → slice_index_or lines.new.items other None ≡ slice_index_or lines.old.items other None) }
{
    while lines.len() <= id {
        lines.push(None)?;
    }
    Ok(())
}

// Notes the line of any other id.
fn note_high(
    lines: &mut BTreeMap<u32, usize>,
    id: u32,
    number: usize,
) -> Result<Option<usize>, OutOfMemory>
    ensures first { IfOk result (λ first. first ≡ get nat_cmp lines.old id) }
    ensures noted { IfOk result (λ first. (other : ℕ) → get nat_cmp lines.new other
        ≡ (if id == other then Some (unwrap_or first number) else get nat_cmp lines.old other)) }
{
    let Some(first) = lines.insert(id, number)? else {
        return Ok(None);
    };
    lines.insert(id, first)?;
    Ok(Some(first))
}
