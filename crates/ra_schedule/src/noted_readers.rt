ghost use Rattle.std.specs.Prelude.{◌≡◌, ◌++◌, ◌<◌, true, [], ◌∷◌, length, replicate, slice_index_or, IfOk, OnOk, OnErr};
ghost use Rattle.ra_links.specs.FlatRows.{AreOnRows, rows_by};
ghost use Rattle.ra_schedule.specs.Readers.{AreWithin, IsLast, Notes};

use ra_links::Entry;
use ra_text::OutOfMemory;
use std::alloc::Global;
use std::marker::Model;

/// Which readers read each node of a table, while they are noted: docs/INTERNALS.md, "Readers of nodes".
///
/// Nodes and readers go by their numbers, from 0 on. All readers are due.
#[derive(Drop)]
pub struct NotedReaders {
    pub(crate) entries: Vec<Entry>,
    // for each node one more than the reader that was noted for it last, or 0 where none was
    lasts: Vec<u32>,
    pub(crate) readers: usize,
}

impl Model for NotedReaders {
    ghost use Rattle.ra_schedule.specs.Readers.{ReadersSeen};
    ghost use Rattle.std.specs.Prelude.{map};
    ghost use Rattle.ra_schedule.specs.Noted.{AreNoted, noted_seen, reader_of};

    ghost Value = { ReadersSeen };

    ghost view = { λ r. noted_seen r.entries.items (map reader_of r.lasts.items) r.readers };

    ghost invariant = { λ r. AreNoted r.entries.items (map reader_of r.lasts.items) r.readers };
}

impl NotedReaders {
    /// No reader reads any of this many nodes, and this many readers are all due. Memory is the only refusal.
    pub fn new(alloc: Global, nodes: usize, readers: usize) -> Result<NotedReaders, OutOfMemory>
        ensures { IfOk result (λ r. r ≡ record { rows = replicate nodes []; due = replicate readers true }) }
    {
        let entries = Vec::with_capacity(alloc, nodes)?;
        let lasts = vec![in alloc; 0; nodes]?;
        Ok(NotedReaders {
            entries,
            lasts,
            readers,
        })
    }

    /// How many nodes there are.
    pub fn nodes(&self) -> usize
        ensures { result ≡ length self.now.rows }
    {
        self.lasts.len()
    }

    /// Notes that a reader reads a node. The one that was noted last for the node is not put twice.
    ///
    /// `OutOfMemory` where memory ends, or for the reader 4,294,967,295, and then nothing is noted.
    pub fn note(&mut self, node: u32, reader: u32) -> Result<(), OutOfMemory>
        requires node { node < length self.old.rows }
        requires reader { reader < length self.old.due }
        ensures noted { OnOk result (Notes node reader self.old self.new) }
        ensures err { OnErr result (self.new ≡ self.old) }
        ensures again { IsLast reader (slice_index_or self.old.rows node []) → self.new ≡ self.old }
        // Noted or not:
        ensures rows { length self.new.rows ≡ length self.old.rows }
        ensures due { self.new.due ≡ self.old.due }
    {
        if reader == u32::MAX {
            return Err(OutOfMemory);
        }
        let last = reader + 1;
        if self.lasts[node as usize] == last {
            return Ok(());
        }
        let entry = Entry {
            row: node,
            number: reader,
        };
        self.entries.push(entry)?;
        self.lasts[node as usize] = last;
        Ok(())
    }

    /// Adds a node after the others, which no reader reads. Memory is the only refusal.
    pub fn add(&mut self) -> Result<(), OutOfMemory>
        ensures added { OnOk result (self.new ≡ record self.old { rows = self.old.rows ++ [] ∷ [] }) }
        ensures err { OnErr result (self.new ≡ self.old) }
    {
        self.lasts.push(0)?;
        Ok(())
    }

    // What was noted, and how many readers there are. What only noting needs is dropped.
    pub(crate) fn into_entries(self) -> (Vec<Entry>, usize)
        ensures on { AreOnRows (length self.rows) result.0.items }
        ensures rows { rows_by (length self.rows) result.0.items ≡ self.rows }
        ensures due { replicate result.1 true ≡ self.due }
        ensures within { AreWithin self }
    {
        let NotedReaders {
            entries,
            readers,
            ..
        } = self;
        (entries, readers)
    }
}
