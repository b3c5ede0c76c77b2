//! The comparisons that each node has.

ghost use Rattle.std.specs.Prelude.{◌≤◌, ◌^◌, length, IfOk};
ghost use Rattle.ra_truths.specs.Comparisons.{AreWithin};
ghost use Rattle.ra_truths.specs.Uses.{AreUses};

use crate::comparison::Comparison;
use ra_links::{Entry, FlatRows};
use ra_text::OutOfMemory;
use std::alloc::Global;

/// For each of this many nodes the numbers of the comparisons that it has: docs/INTERNALS.md, "Truths of comparisons".
///
/// Memory is the only refusal.
pub fn uses_of(
    alloc: Global,
    comparisons: &[Comparison],
    nodes: u32,
) -> Result<FlatRows, OutOfMemory>
    requires few { length comparisons.now ≤ 2 ^ 30 }
    requires within { AreWithin nodes comparisons.now }
    ensures { IfOk result (AreUses comparisons.now nodes) }
{
    let mut entries = Vec::with_capacity(alloc, 2 * comparisons.len())?;
    for (number, comparison) in comparisons.iter().enumerate() {
        let number = number as u32;
        let left = Entry {
            row: comparison.left,
            number,
        };
        let right = Entry {
            row: comparison.right,
            number,
        };
        entries.push(left)?;
        entries.push(right)?;
    }
    FlatRows::new(alloc, nodes, &entries)
}
