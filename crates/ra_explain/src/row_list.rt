//! Rows of comparisons in one list, each of which has the place of the row before it.

ghost use Rattle.std.specs.Prelude.{◌≡◌, ◌+◌, ◌*◌, ◌<◌, ◌≤◌, false, true, [], ◌∷◌, length, replicate, reverse, IfOk, OnErr};
ghost use Rattle.std.specs.Result.{OnOk};
ghost use Rattle.std.specs.List.{AllByRecursion, flat_map};
ghost use Rattle.ra_member.specs.Readings.{truths_by, numbers_at};
ghost use Rattle.ra_member.specs.Runs.{MayFill};
ghost use Rattle.ra_explain.specs.RowLists.{rows_from, with_row, refilled, truths_laid};

use crate::indices::{count_from, indices_from, rows_at};
use crate::ordered_rows::OrderedRows;
use crate::row::read_row;
use ra_member::Laid;
use ra_memref::Table;
use ra_text::OutOfMemory;
use std::alloc::Global;
use std::marker::Model;

/// The rows of all frames that were taken: docs/DEFINITIONS.md, "Recorders".
///
/// It is seen as the rows from each place back. Place 0 has none, and place k + 1 has row k and the rows from
/// the place back that row k has.
#[derive(Drop)]
pub(crate) struct RowList {
    width: usize,
    // the comparisons of all rows, one row after the other
    truths: Vec<bool>,
    // for each row the place that it comes after
    links: Vec<u32>,
}

impl Model for RowList {
    ghost use Rattle.ra_explain.specs.RowLists.{RowsSeen};

    ghost Value = { RowsSeen };

    ghost use Rattle.ra_explain.specs.RowsInside.{rows_seen, IsRowList};

    ghost view = { rows_seen };

    ghost invariant = { IsRowList };
}

impl RowList {
    // No rows, of this many comparisons each.
    pub(crate) fn new(alloc: Global, width: usize) -> RowList
        ensures { result ≡ record { width = width; behind = [] ∷ [] } }
    {
        RowList {
            width,
            truths: Vec::new(alloc),
            links: Vec::new(alloc),
        }
    }

    // How many rows there are.
    pub(crate) fn len(&self) -> usize
        ensures { length self.now.behind ≡ result + 1 }
    {
        self.links.len()
    }

    // Adds a row in which no comparison holds, after a place.
    pub(crate) fn add(&mut self, before: u32) -> Result<(), OutOfMemory>
        requires there { before < length self.old.behind }
        requires few { length self.old.behind * (self.old.width + 1) ≤ 67108864 }
        ensures ok { OnOk result (self.new ≡ record self.old {
          behind = with_row self.old.behind (replicate self.old.width false) before;
        }) }
        ensures err { OnErr result (self.new ≡ self.old) }
    {
        let long = self.truths.len();
        self.truths.resize(long + self.width, false)?;
        if self.links.push(before).is_err() {
            self.truths.truncate(long);
            return Err(OutOfMemory);
        }
        Ok(())
    }

    // Takes the comparisons of a table's last sample for the last row.
    pub(crate) fn fill(&mut self, laid: &Laid, table: &Table)
        requires some { 1 < length self.old.behind }
        requires may { MayFill table.now.nodes laid.now }
        requires sampled { table.now.sampled ≡ true }
        requires width { length laid.now.ops ≡ self.old.width }
        ensures { self.new ≡ record self.old {
          behind = refilled self.old.behind (truths_laid table.now.values laid.now);
        } }
    {
        let from = self.truths.len() - self.width;
        read_row(laid, table, &mut self.truths[from..]);
    }

    // The rows from a place back, the oldest first.
    pub(crate) fn behind(&self, alloc: Global, place: u32) -> Result<Vec<bool>, OutOfMemory>
        requires { place < length self.now.behind }
        ensures { IfOk result (λ rows. rows.items ≡ flat_map (λ row. row) (reverse (rows_from self.now.behind place))) }
    {
        rows_at(alloc, self.width, &self.truths, &self.links, place)
    }

    // The same rows as they stand in the list.
    pub(crate) fn in_order(&self, alloc: Global, place: u32) -> Result<OrderedRows<'_>, OutOfMemory>
        requires { place < length self.now.behind }
        ensures rows { IfOk result (λ rows. rows ≡ reverse (rows_from self.now.behind place)) }
        ensures width { IfOk result (λ rows. AllByRecursion (λ row. length row ≡ self.now.width) rows) }
    {
        let mut order = indices_from(alloc, &self.links, place)?;
        order.reverse();
        Ok(OrderedRows::new(self.width, &self.truths, order))
    }

    // How many rows there are from a place back.
    pub(crate) fn count(&self, place: u32) -> u32
        requires { place < length self.now.behind }
        ensures { length (rows_from self.now.behind place) ≡ result }
    {
        count_from(&self.links, place)
    }
}
