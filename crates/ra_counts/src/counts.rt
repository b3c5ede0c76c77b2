//! The counts of a set's cells and tracked masks.

ghost use Rattle.std.specs.Prelude.{◌≡◌, length, IfOk};
ghost use Rattle.ra_set.specs.Contents.{set_contents};
ghost use Rattle.ra_set.specs.Limits.{IsWithinLimits};
ghost use Rattle.ra_set.specs.Spelled.{IsSpelled};
ghost use Rattle.ra_meaning.specs.Order.{set_cells, set_tracked};

use crate::planted::plant_items;
use ra_display::counted_presence;
use ra_indirect::Pool;
use ra_memref::Table;
use ra_set::Set;
use ra_text::OutOfMemory;
use std::alloc::Global;

/// How many cells and tracked masks there are.
#[derive(Clone, Copy, Debug, PartialEq, Eq)]
pub struct Counts {
    pub cells: usize,
    pub tracked: usize,
}

/// How many cells and tracked masks a set has: docs/DEFINITIONS.md, "Counts of a set". Memory is the only refusal.
pub fn counts_of(alloc: Global, set: &Set) -> Result<Counts, OutOfMemory>
    requires limits { IsWithinLimits (set_contents set.now) }
    requires spelled { IsSpelled (set_contents set.now) }
    ensures cells { IfOk result (λ counts. counts.cells ≡ length (set_cells (set_contents set.now))) }
    ensures tracked { IfOk result (λ counts. counts.tracked ≡ length (set_tracked (set_contents set.now))) }
{
    let mut pool = Pool::new(alloc);
    plant_items(alloc, &set.items, &mut pool)?;
    let _presence = counted_presence(alloc, &set.script, &mut pool)?;
    let table = Table::for_looks(alloc, pool, 0)?;
    let cells = table.cells().len();
    let tracked = table.priors().len();
    Ok(Counts { cells, tracked })
}
