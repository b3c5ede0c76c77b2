//! The rows from a place back, by their indices.

ghost use Rattle.std.specs.Prelude.{◌≤◌, ◌*◌, ◌≡◌, ℕ, Bool, List, length, reverse, IfOk};
ghost use Rattle.std.specs.List.{flat_map};
ghost use Rattle.ra_explain.specs.RowLists.{AreEarlier, AreIndices, behind_each, rows_from};

use ra_text::OutOfMemory;
use std::alloc::Global;

// The index of each row from a place back, the newest first.
pub(crate) fn indices_from(
    alloc: Global,
    links: &[u32],
    place: u32,
) -> Result<Vec<u32>, OutOfMemory>
    requires earlier { AreEarlier links.now }
    requires there { place ≤ length links.now }
    ensures { IfOk result (λ indices. AreIndices links.now place indices.items) }
{
    let mut indices = Vec::new(alloc);
    let mut at = place;
    while at > 0 {
        let index = at - 1;
        indices.push(index)?;
        at = links[index as usize];
    }
    Ok(indices)
}

// How many rows there are from a place back.
pub(crate) fn count_from(links: &[u32], place: u32) -> u32
    requires earlier { AreEarlier links.now }
    requires there { place ≤ length links.now }
    ensures { (width : ℕ) (truths : List Bool) → length (rows_from (behind_each width truths links.now) place) ≡ result }
{
    let mut count = 0;
    let mut at = place;
    while at > 0 {
        count += 1;
        at = links[at as usize - 1];
    }
    count
}

// The rows of these indices, the last first.
pub(crate) fn rows_at(
    alloc: Global,
    width: usize,
    truths: &[bool],
    links: &[u32],
    place: u32,
) -> Result<Vec<bool>, OutOfMemory>
    requires whole { length truths.now ≡ length links.now * width }
    requires earlier { AreEarlier links.now }
    requires there { place ≤ length links.now }
    ensures { IfOk result (λ rows. rows.items ≡ flat_map (λ row. row) (reverse (rows_from (behind_each width truths.now links.now) place))) }
{
    let mut indices = indices_from(alloc, links, place)?;
    let mut rows = Vec::new(alloc);
    while let Some(index) = indices.pop() {
        let from = index as usize * width;
        rows.extend_from_slice(&truths[from..from + width])?;
    }
    Ok(rows)
}
