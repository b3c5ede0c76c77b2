//! All items of a set over one table.

ghost use Rattle.std.specs.Prelude.{◌≡◌, ◌+◌, ◌*◌, ◌≤◌, ◌^◌, option_map, length, map, sum_by, All, IfOk};
ghost use Rattle.std.specs.List.{slice_get};
ghost use Rattle.ra_set.specs.Contents.{item_contents};
ghost use Rattle.ra_set.specs.Limits.{item_conditions};
ghost use Rattle.ra_items.specs.ItemStates.{run_state};
ghost use Rattle.ra_items.specs.Planning.{AreWaiting};
ghost use Rattle.ra_set.specs.Spelled.{IsItem};

use crate::item_run::ItemRun;
use crate::item_state::ItemState;
use ra_indirect::Pool;
use ra_set::Item;
use ra_text::OutOfMemory;
use std::alloc::Global;

/// New runs of items, with all their trees in the pool.
pub fn new_runs(alloc: Global, items: &[Item], pool: &mut Pool) -> Result<Vec<ItemRun>, OutOfMemory>
    requires spelled { All IsItem (map item_contents items.now) }
    requires room { length pool.old + 13 * sum_by item_conditions (map item_contents items.now) + 2 ≤ 2 ^ 31 }
    ensures { IfOk result (λ runs. AreWaiting pool.old pool.new (map item_contents items.now) runs.items) }
{
    let mut runs = Vec::new(alloc);
    // This call tells that the nodes are those of a pool, which the proof needs.
    let _ = pool.len();
    for item in items {
        let run = ItemRun::new(alloc, item, pool)?;
        runs.push(run)?;
    }
    Ok(runs)
}

/// Where the item of the run at a place stands, if there is one.
pub fn state_in(runs: &[ItemRun], place: usize) -> Option<ItemState>
    ensures { result ≡ option_map run_state (slice_get runs.now place) }
{
    if place < runs.len() {
        Some(runs[place].state())
    } else {
        None
    }
}
