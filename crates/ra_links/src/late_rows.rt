ghost use Rattle.std.specs.Prelude.{◌≡◌, ◌<◌, ◌≤◌, ℕ, length, map, IfOk};
ghost use Rattle.ra_links.specs.Rows.{row_at};
ghost use Rattle.ra_links.specs.FlatRows.{AreOnRows, entry_at, rows_by};
ghost use Rattle.ra_links.specs.LateRows.{AreFrom, moved_by};

use crate::entry::Entry;
use crate::flat_rows::FlatRows;
use ra_text::OutOfMemory;
use std::alloc::Global;
use std::marker::Model;

/// Rows of numbers, of which those in front of the first one with a number take no memory:
/// docs/INTERNALS.md, "Flat rows".
///
/// Only `new` takes memory.
#[derive(Drop)]
pub struct LateRows {
    empty: usize,
    // those from the first one with a number on
    rows: FlatRows,
}

impl Model for LateRows {
    ghost use Rattle.std.specs.Prelude.{ℕ, List, [], ◌++◌, ◌+◌, ◌<◌, ◌^◌, length, replicate};

    ghost Value = { List (List ℕ) };

    ghost view = { λ r. replicate r.empty [] ++ r.rows };

    ghost invariant = { λ r. r.empty + length r.rows < 2 ^ 32 };
}

impl LateRows {
    /// This many rows, each with the numbers that these entries put on it, in their order. Memory is the only refusal:
    /// that of the machine, or for more than 4,294,967,295 entries.
    pub fn new(alloc: Global, rows: u32, entries: Vec<Entry>) -> Result<LateRows, OutOfMemory>
        requires { AreOnRows rows entries.items }
        ensures { IfOk result (λ r. r ≡ rows_by rows entries.items) }
    {
        let mut entries = entries;
        let empty = first_row(&entries, rows);
        move_by(&mut entries, empty);
        let rows = FlatRows::new(alloc, rows - empty, &entries)?;
        Ok(LateRows {
            empty: empty as usize,
            rows,
        })
    }

    /// How many rows there are.
    pub fn rows(&self) -> usize
        ensures { result ≡ length self.now }
    {
        self.empty + self.rows.rows()
    }

    /// The numbers of a row.
    pub fn row(&self, row: usize) -> &[u32]
        requires { row < length self.now }
        ensures { result.now ≡ row_at self.now row }
    {
        if row < self.empty {
            &[]
        } else {
            self.rows.row(row - self.empty)
        }
    }
}

// The first row of an entry, or how many rows there are.
fn first_row(entries: &[Entry], rows: u32) -> u32
    ensures most { result ≤ rows }
    ensures first { AreFrom result entries.now }
{
    let mut first = rows;
    for entry in entries {
        first = first.min(entry.row);
    }
    first
}

// Moves entries to rows that are this many further to the front.
fn move_by(entries: &mut [Entry], count: u32)
    requires { AreFrom count entries.old }
    ensures { entries.new ≡ map (moved_by count) entries.old }
{
    for place in 0..entries.len() {
        let Entry { row, number } = entries[place];
        entries[place] = Entry {
            row: row - count,
            number,
        };
    }
}
