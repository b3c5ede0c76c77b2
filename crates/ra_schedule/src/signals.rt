ghost use Rattle.std.specs.Prelude.{◌≡◌, ◌+◌, ◌<◌, ◌≤◌, ◌^◌, [], true, length, replicate, IfOk, OnOk};
ghost use Rattle.ra_truths.specs.Comparisons.{IsWithin};
ghost use Rattle.ra_schedule.specs.Signals.{NotesComparison, NotesNode};

use crate::noted_readers::NotedReaders;
use ra_text::OutOfMemory;
use ra_truths::{Comparison, Comparisons};
use std::alloc::Global;
use std::marker::Model;

/// The most comparisons that are told apart.
const MOST: u32 = 1 << 30;

/// What readers are woken by, while they are noted: docs/INTERNALS.md, "Signals".
///
/// The signals are the nodes of a table, by their numbers, and after them the distinct comparisons that are read.
#[derive(Drop)]
pub struct Signals {
    pub(crate) nodes: u32,
    pub(crate) comparisons: Comparisons,
    pub(crate) readers: NotedReaders,
    alloc: Global,
}

impl Model for Signals {
    ghost use Rattle.std.specs.Prelude.{◌+◌, ◌≤◌, ◌^◌, length};
    ghost use Rattle.ra_truths.specs.Comparisons.{AreWithin};
    ghost use Rattle.ra_schedule.specs.Signals.{SignalsSeen};

    ghost Value = { SignalsSeen };

    ghost view = { λ s. record { nodes = s.nodes; comparisons = s.comparisons; readers = s.readers } };

    ghost invariant = { λ s. record {
      few : s.nodes ≤ 2 ^ 30;
      within : AreWithin s.nodes s.comparisons;
      rows : s.nodes + length s.comparisons ≤ length s.readers.rows;
    } };
}

impl Signals {
    /// No reader reads any of this many nodes, and this many readers are all due. Memory is the only refusal.
    pub fn new(alloc: Global, nodes: u32, places: usize) -> Result<Signals, OutOfMemory>
        requires { nodes ≤ 2 ^ 30 }
        ensures { IfOk result (λ s. s ≡ record {
          nodes = nodes;
          comparisons = [];
          readers = record { rows = replicate nodes []; due = replicate places true };
        }) }
    {
        let readers = NotedReaders::new(alloc, nodes as usize, places)?;
        let comparisons = Comparisons::with_room(alloc, nodes as usize)?;
        Ok(Signals {
            nodes,
            comparisons,
            readers,
            alloc,
        })
    }

    /// Notes that a reader reads the number of a node. Memory is the only refusal.
    pub fn note_node(&mut self, node: u32, reader: u32) -> Result<(), OutOfMemory>
        requires node { node < self.old.nodes }
        requires reader { reader < length self.old.readers.due }
        ensures { OnOk result (NotesNode node reader self.old self.new) }
    {
        self.readers.note(node, reader)
    }

    /// Notes that a reader reads a comparison of two of the nodes. Memory is the only refusal: that of the
    /// machine, or for more than 1,073,741,824 comparisons.
    pub fn note_comparison(
        &mut self,
        comparison: Comparison,
        reader: u32,
    ) -> Result<(), OutOfMemory>
        requires within { IsWithin self.old.nodes comparison }
        requires reader { reader < length self.old.readers.due }
        ensures { OnOk result (NotesComparison comparison reader self.old self.new) }
    {
        let count = self.comparisons.len();
        if count >= MOST {
            return Err(OutOfMemory);
        }
        if self.readers.nodes() == (self.nodes + count) as usize {
            self.readers.add()?;
        }
        let number = self.comparisons.intern(comparison)?;
        self.readers.note(self.nodes + number, reader)
    }

    // The memory that the signals are noted in.
    pub(crate) fn alloc(&self) -> Global {
        self.alloc
    }
}
