ghost use Rattle.std.specs.Prelude.{◌≡◌, ◌≤◌, length, map, IfOk};
ghost use Rattle.ra_indirect.specs.Pools.{cells_of, tracked_of};
ghost use Rattle.ra_indirect.specs.Interned.{IsPool};
ghost use Rattle.ra_memref.specs.Layout.{IsLaid};
ghost use Rattle.ra_memref.specs.Names.{cell_name, tracked_name};

use crate::names::{put_cells, put_masks, put_node_names, put_wanted};
use ra_indirect::Node;
use ra_text::OutOfMemory;
use std::alloc::Global;
use std::marker::Model;

/// Room in which the names of cells and tracked masks are made: docs/DEFINITIONS.md, "Names of cells and masks".
/// Only `new` takes memory.
///
/// It is seen as how many nodes it has room for.
#[derive(Drop)]
pub struct NameRoom {
    wanted: Vec<bool>,
    names: Vec<[u8; 16]>,
}

impl Model for NameRoom {
    ghost use Rattle.std.specs.Prelude.{◌≡◌, ℕ};
    ghost use Rattle.std.specs.Vec.{vec_capacity};

    ghost Value = { ℕ };

    ghost view = { λ r. vec_capacity r.names };

    ghost invariant = { λ r. vec_capacity r.wanted ≡ vec_capacity r.names };
}

impl NameRoom {
    /// Room for the names of this many nodes. Memory is the only refusal.
    pub fn new(alloc: Global, nodes: usize) -> Result<NameRoom, OutOfMemory>
        ensures { IfOk result (λ room. room ≡ nodes) }
    {
        let wanted = Vec::with_capacity(alloc, nodes)?;
        let names = Vec::with_capacity(alloc, nodes)?;
        Ok(NameRoom { wanted, names })
    }

    // Puts the names of the cells and of the tracked masks of a pool at the slots of its nodes.
    pub(crate) fn put_names(
        &mut self,
        nodes: &[Node],
        slots: &[u32],
        cells: &mut [[u8; 16]],
        priors: &mut [[u8; 16]],
    )
        requires pool { IsPool nodes.now }
        requires slots { IsLaid nodes.now slots.now }
        requires room { length nodes.now ≤ self.old }
        requires cells { length cells.old ≡ length (cells_of nodes.now) }
        requires priors { length priors.old ≡ length (tracked_of nodes.now) }
        ensures cells { cells.new ≡ map cell_name (cells_of nodes.now) }
        ensures priors { priors.new ≡ map tracked_name (tracked_of nodes.now) }
        ensures room { self.new ≡ self.old }
    {
        put_wanted(&mut self.wanted, nodes);
        put_node_names(&mut self.names, nodes, &self.wanted);
        put_cells(nodes, slots, &self.names, cells);
        put_masks(nodes, slots, &self.names, priors);
    }
}
