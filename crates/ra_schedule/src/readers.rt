ghost use Rattle.std.specs.Prelude.{◌≡◌, ◌+◌, ◌<◌, ℕ, true, length, map, replicate, slice_index, slice_set, IfOk, IfSome, None};
ghost use Rattle.ra_memref.specs.Flags.{NoneSet, IsFirstSet};
ghost use Rattle.ra_schedule.specs.Readers.{Wakes, all_woken};

use crate::noted_readers::NotedReaders;
use ra_links::LateRows;
use ra_memref::{Flags, set_all};
use ra_text::OutOfMemory;
use std::alloc::Global;
use std::marker::Model;

/// Which readers read each node of a table, and which of them are due: docs/INTERNALS.md, "Readers of nodes".
///
/// Nodes and readers go by their numbers, from 0 on. Only `new` takes memory.
#[derive(Drop)]
pub struct Readers {
    rows: LateRows,
    due: Flags,
}

impl Model for Readers {
    ghost use Rattle.ra_schedule.specs.Readers.{ReadersSeen, AreWithin};

    ghost Value = { ReadersSeen };

    ghost view = { λ r. record { rows = r.rows; due = r.due } };

    ghost invariant = { λ r. AreWithin (record { rows = r.rows; due = r.due }) };
}

impl Readers {
    /// Those that were noted, which are all due. Memory is the only refusal.
    pub fn new(alloc: Global, noted: NotedReaders) -> Result<Readers, OutOfMemory>
        ensures { IfOk result (λ r. r ≡ all_woken noted) }
    {
        let nodes = noted.nodes();
        let (entries, readers) = noted.into_entries();
        let Ok(nodes) = u32::try_from(nodes) else {
            return Err(OutOfMemory);
        };
        let rows = LateRows::new(alloc, nodes, entries)?;
        let due = Flags::new(alloc, readers)?;
        Ok(Readers { rows, due })
    }

    /// How many nodes there are.
    pub fn nodes(&self) -> usize
        ensures { result ≡ length self.now.rows }
    {
        self.rows.rows()
    }

    /// Makes the readers of these nodes due, which are counted from one on.
    pub fn wake(&mut self, from: u32, nodes: &[u32])
        requires { (k : ℕ) → k < length nodes.now → from + slice_index nodes.now k < length self.old.rows }
        ensures { Wakes (map (λ n. from + n) nodes.now) self.old self.new }
    {
        for node in nodes {
            set_all(&mut self.due, self.rows.row(from as usize + *node as usize));
        }
    }

    /// Makes every reader due.
    pub fn wake_all(&mut self)
        ensures { self.new ≡ record self.old { due = replicate (length self.old.due) true } }
    {
        self.due.fill();
    }

    /// The first reader from one on that is due. None exactly where none is.
    pub fn next_due(&mut self, from: usize) -> Option<usize>
        ensures first { IfSome result (λ n. IsFirstSet self.old.due from n) }
        ensures none { result ≡ None → NoneSet self.old.due from (length self.old.due) }
        ensures same { self.new ≡ self.old }
    {
        self.due.next_from(from)
    }

    /// Makes a reader due, or lets it rest.
    pub fn put(&mut self, reader: usize, due: bool)
        requires { reader < length self.old.due }
        ensures { self.new ≡ record self.old { due = slice_set self.old.due reader due } }
    {
        self.due.put(reader, due);
    }
}
