ghost use Rattle.std.specs.Prelude.{◌≡◌, ◌≢◌, ℕ, ◌<◌, ◌≤◌, ◌^◌, ◌+◌, [], true, false, length, replicate, slice_index, slice_index_or, IfOk};
ghost use Rattle.ra_operand.specs.Operators.{compared, is_arithmetic};
ghost use Rattle.ra_truths.specs.Comparisons.{AreOver, AreWithin, IsOver, comparison_at, holds_by, truths_by};
ghost use Rattle.ra_truths.specs.Kept.{put_in};
ghost use Rattle.ra_truths.specs.Settling.{Settles};
ghost use Rattle.ra_truths.specs.Truths.{IsTold, Takes, AreChanged};
ghost use Rattle.ra_truths.specs.Uses.{AreUses};

use crate::comparison::Comparison;
use crate::comparisons::Comparisons;
use crate::kept::Kept;
use crate::uses::uses_of;
use ra_links::FlatRows;
use ra_memref::Table;
use ra_operand::{Op, compare};
use ra_text::OutOfMemory;
use std::alloc::Global;
use std::marker::Model;

/// Above one in this many nodes that changed, all comparisons are computed.
const SHARE: usize = 2;

/// The truths of distinct comparisons by the values of a table: docs/INTERNALS.md, "Truths of comparisons".
///
/// Before the first frame is taken each truth is false and counts for nothing. Only `new` takes memory.
#[derive(Drop)]
pub struct Truths {
    comparisons: Vec<Comparison>,
    nodes: u32,
    rows: FlatRows,
    kept: Kept,
    known: bool,
}

impl Model for Truths {
    ghost use Rattle.ra_truths.specs.Truths.{TruthsSeen};

    ghost Value = { TruthsSeen };

    ghost use Rattle.ra_truths.specs.Seen.{truths_seen, AreTruths};

    ghost view = { truths_seen };

    ghost invariant = { AreTruths };
}

impl Truths {
    /// Truths of comparisons that are given up, over this many nodes. No frame was taken. Memory is the only refusal.
    pub fn of(alloc: Global, comparisons: Comparisons, nodes: u32) -> Result<Truths, OutOfMemory>
        requires nodes { nodes ≤ 2 ^ 31 }
        requires within { AreWithin nodes comparisons }
        ensures { IfOk result (λ truths. truths ≡ record {
          comparisons = comparisons;
          nodes = nodes;
          truths = replicate (length comparisons) false;
          flipped = [];
          known = false;
        }) }
    {
        let list = comparisons.into_list();
        Truths::of_list(alloc, list, nodes)
    }

    // The same of a list of comparisons.
    fn of_list(
        alloc: Global,
        comparisons: Vec<Comparison>,
        nodes: u32,
    ) -> Result<Truths, OutOfMemory>
        requires few { length comparisons.items ≤ 2 ^ 30 }
        requires within { AreWithin nodes comparisons.items }
        ensures { IfOk result (λ truths. truths ≡ record {
          comparisons = comparisons.items;
          nodes = nodes;
          truths = replicate (length comparisons.items) false;
          flipped = [];
          known = false;
        }) }
    {
        let rows = uses_of(alloc, &comparisons, nodes)?;
        let kept = Kept::new(alloc, comparisons.len())?;
        Ok(Truths {
            comparisons,
            nodes,
            rows,
            kept,
            known: false,
        })
    }

    /// How many comparisons there are.
    pub fn len(&self) -> u32
        ensures { result ≡ length self.now.comparisons }
    {
        self.comparisons.len() as u32
    }

    /// How many nodes the comparisons are over.
    pub fn nodes(&self) -> u32
        ensures { result ≡ self.now.nodes }
    {
        self.nodes
    }

    /// Takes up one frame: docs/INTERNALS.md, "Truths of comparisons".
    ///
    /// The table was sampled, and has the nodes of the comparisons. From the second frame on it lists each
    /// node whose value is another than at the last frame that was taken. Each truth is then that of its
    /// comparison by the values of the table, and exactly those that flipped are listed.
    pub fn take(&mut self, table: &Table)
        requires nodes { length table.now.nodes ≡ self.old.nodes }
        requires over { AreOver table.now.nodes self.old.comparisons }
        requires sampled { table.now.sampled ≡ true }
        requires told { self.old.known ≡ true → IsTold self.old.comparisons self.old.truths table.now }
        ensures { Takes self.old self.new table.now }
    {
        self.kept.clear();
        if self.known && table.changed().len() <= self.nodes as usize / SHARE {
            settle_changed(&mut self.kept, &self.comparisons, &self.rows, table);
        } else {
            settle_all(&mut self.kept, &self.comparisons, table);
        }
        self.known = true;
    }

    /// Passes over a frame: no truth is known until a frame is taken, and none is listed.
    pub fn skip(&mut self)
        ensures { self.new ≡ record self.old { flipped = []; known = false } }
    {
        self.kept.clear();
        self.known = false;
    }

    /// Whether the truths are those of the last frame.
    pub fn is_known(&self) -> bool
        ensures { result ≡ self.now.known }
    {
        self.known
    }

    /// Whether the comparison of a number holds, by the values of the frame that was taken last.
    pub fn truth(&self, number: u32) -> bool
        requires number { number < length self.now.comparisons }
        requires known { self.now.known ≡ true }
        ensures { result ≡ slice_index_or self.now.truths number false }
    {
        self.kept.truth(number)
    }

    /// The numbers of the comparisons that flipped at the frame that was taken last.
    ///
    /// At the first frame these are those that hold.
    pub fn flipped(&self) -> &[u32]
        ensures numbers { result.now ≡ self.now.flipped }
        ensures few { length result.now ≤ length self.now.comparisons }
    {
        self.kept.flipped()
    }
}

// Computes the truths of all comparisons.
fn settle_all(kept: &mut Kept, comparisons: &[Comparison], table: &Table)
    requires few { length comparisons.now ≤ 2 ^ 30 }
    requires over { AreOver table.now.nodes comparisons.now }
    requires sampled { table.now.sampled ≡ true }
    requires long { length kept.old.truths ≡ length comparisons.now }
    requires none { kept.old.flipped ≡ [] }
    ensures settled { kept.new.truths ≡ truths_by table.now.values comparisons.now }
    ensures settles { Settles (truths_by table.now.values comparisons.now) kept.old kept.new }
{
    let mut at = next_flip(kept.truths(), comparisons, table, 0);
    while at < comparisons.len() {
        settle(kept, comparisons, table, at as u32);
        at = next_flip(kept.truths(), comparisons, table, at + 1);
    }
}

// The place of the first comparison from one on that has another truth than was kept, or how many there are. It only
// reads, so that the compiler holds what it reads from in registers.
#[inline(never)]
fn next_flip(truths: &[bool], comparisons: &[Comparison], table: &Table, from: usize) -> usize
    requires over { AreOver table.now.nodes comparisons.now }
    requires sampled { table.now.sampled ≡ true }
    requires long { length truths.now ≡ length comparisons.now }
    requires from { from ≤ length comparisons.now }
    ensures after { from ≤ result }
    ensures most { result ≤ length comparisons.now }
    ensures same { (k : ℕ) → from ≤ k → k < result
        → slice_index_or truths.now k false ≡ slice_index_or (truths_by table.now.values comparisons.now) k false }
{
    for number in from..comparisons.len() {
        if holds(comparisons, table, number) != truths[number] {
            return number;
        }
    }
    comparisons.len()
}

// Computes the truths of the comparisons that have a node which changed.
fn settle_changed(kept: &mut Kept, comparisons: &[Comparison], rows: &FlatRows, table: &Table)
    requires over { AreOver table.now.nodes comparisons.now }
    requires sampled { table.now.sampled ≡ true }
    requires uses { AreUses comparisons.now (length table.now.nodes) rows.now }
    requires long { length kept.old.truths ≡ length comparisons.now }
    requires none { kept.old.flipped ≡ [] }
    requires told { IsTold comparisons.now kept.old.truths table.now }
    ensures settled { kept.new.truths ≡ truths_by table.now.values comparisons.now }
    ensures settles { Settles (truths_by table.now.values comparisons.now) kept.old kept.new }
{
    for node in table.changed() {
        for number in rows.row(*node as usize) {
            settle(kept, comparisons, table, *number);
        }
    }
}

// Computes the truth of a comparison, which is listed where it flipped. It is put in line in both loops: a frame computes
// here what it computes anew.
#[inline(always)]
fn settle(kept: &mut Kept, comparisons: &[Comparison], table: &Table, number: u32)
    requires number { number < length comparisons.now }
    requires over { IsOver table.now.nodes (comparison_at comparisons.now number) }
    requires sampled { table.now.sampled ≡ true }
    requires long { length kept.old.truths ≡ length comparisons.now }
    requires room { slice_index_or kept.old.truths number false
        ≢ holds_by table.now.values (comparison_at comparisons.now number)
        → length kept.old.flipped < length kept.old.truths }
    ensures { kept.new ≡ put_in kept.old number (holds_by table.now.values (comparison_at comparisons.now number)) }
{
    let truth = holds(comparisons, table, number as usize);
    kept.put(number, truth);
}

// Whether the comparison of a number holds by the values of the table.
fn holds(comparisons: &[Comparison], table: &Table, number: usize) -> bool
    requires number { number < length comparisons.now }
    requires over { IsOver table.now.nodes (comparison_at comparisons.now number) }
    requires sampled { table.now.sampled ≡ true }
    ensures { result ≡ holds_by table.now.values (comparison_at comparisons.now number) }
{
    let comparison = comparisons[number];
    let left = table.value(comparison.left);
    let right = table.value(comparison.right);
    match comparison.op {
        Op::Eq => left == right,
        op => holds_otherwise(op, left, right),
    }
}

// Whether two numbers compare so by another operator than `=`, which is the usual one. It is not put in line, so that
// `=` is told by one test and not by a table of all operators.
#[inline(never)]
fn holds_otherwise(op: Op, left: u32, right: u32) -> bool
    requires { is_arithmetic op ≡ false }
    ensures { result ≡ compared op left right }
{
    compare(op, left, right)
}
