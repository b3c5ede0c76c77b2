ghost use Rattle.std.specs.Prelude.{◌≡◌, ◌<◌, [], length, IfOk};
ghost use Rattle.ra_memref.specs.Changes.{noted};

use ra_text::OutOfMemory;
use std::alloc::Global;
use std::marker::Model;

/// The nodes that a frame gave another number, in a row with room for all. Only `new` takes memory.
#[derive(Drop)]
pub struct Changes {
    nodes: Vec<u32>,
}

impl Model for Changes {
    ghost use Rattle.std.specs.Vec.{vec_capacity};
    ghost use Rattle.ra_memref.specs.Changes.{ChangesSeen};

    ghost Value = { ChangesSeen };

    ghost view = { λ c. record { listed = c.nodes.items; room = vec_capacity c.nodes } };
}

impl Changes {
    /// Room for this many nodes, of which none is listed. Memory is the only refusal.
    pub fn new(alloc: Global, room: usize) -> Result<Changes, OutOfMemory>
        ensures { IfOk result (λ c. c ≡ record { listed = []; room = room }) }
    {
        let nodes = Vec::with_capacity(alloc, room)?;
        Ok(Changes { nodes })
    }

    /// Takes all nodes off the list.
    pub fn clear(&mut self)
        ensures { self.new ≡ record self.old { listed = [] } }
    {
        self.nodes.clear();
    }

    /// Lists a node after the others where it changed.
    pub fn note(&mut self, node: u32, changed: bool)
        requires { length self.old.listed < self.old.room }
        ensures { self.new ≡ record self.old { listed = noted self.old.listed node changed } }
    {
        if changed {
            self.nodes.push_reserved(node);
        }
    }

    // More nodes than this many are listed. No clause speaks of what it tells.
    pub(crate) fn are_more(&self, many: usize) -> bool {
        self.nodes.len() > many
    }

    /// The listed nodes, in the order in which they were noted.
    pub fn listed(&self) -> &[u32]
        ensures { result.now ≡ self.now.listed }
    {
        &self.nodes
    }
}
