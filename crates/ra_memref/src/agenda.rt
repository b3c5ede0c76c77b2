//! Which nodes the next pass takes.

ghost use Rattle.std.specs.Prelude.{◌≡◌, ◌++◌, ◌<◌, ◌^◌, ℕ, true, false, length, slice_index, IfOk, OnOk};
ghost use Rattle.ra_indirect.specs.Interned.{IsPool};
ghost use Rattle.ra_memref.specs.Due.{AreDependents, AreCellNodes, IsGathered, entries_of};

use crate::flags::Flags;
use crate::numbers::Numbers;
use ra_indirect::Node;
use ra_links::{Entry, FlatRows};
use ra_text::OutOfMemory;
use std::alloc::Global;

/// The nodes that are due, of which more may be where the flag `all` stands, which nodes name each node,
/// and the node of each cell. Only `new` takes memory.
#[derive(Drop)]
pub struct Agenda {
    pub due: Flags,
    pub all: bool,
    pub dependents: FlatRows,
    pub cell_nodes: Vec<u32>,
}

impl Agenda {
    /// Every node of a pool may be due. Memory is the only refusal.
    pub fn new(alloc: Global, nodes: &[Node]) -> Result<Agenda, OutOfMemory>
        requires pool { IsPool nodes.now }
        requires few { length nodes.now < 2 ^ 30 }
        ensures all { IfOk result (λ agenda. agenda.all ≡ true) }
        ensures dues { IfOk result (λ agenda. length agenda.due ≡ length nodes.now) }
        ensures dependents { IfOk result (λ agenda. AreDependents nodes.now agenda.dependents) }
        ensures cells { IfOk result (λ agenda. AreCellNodes nodes.now (length nodes.now) agenda.cell_nodes.items) }
    {
        let mut due = Flags::new(alloc, nodes.len())?;
        due.clear_from(0);
        let dependents = dependents_of(alloc, nodes)?;
        let cell_nodes = cell_nodes_of(alloc, nodes)?;
        Ok(Agenda {
            due,
            all: true,
            dependents,
            cell_nodes,
        })
    }
}

/// Makes the nodes of the marked cells due, where not all may be.
pub fn gather(due: &mut Flags, cell_nodes: &[u32], numbers: &mut Numbers, all: bool)
    requires cells { length cell_nodes.now ≡ length numbers.old.watches.marked }
    requires few { length cell_nodes.now < 2 ^ 30 }
    requires within { (k : ℕ) → k < length cell_nodes.now → slice_index cell_nodes.now k < length due.old }
    ensures gathered { all ≡ false → IsGathered cell_nodes.now numbers.old.watches.marked due.old due.new }
    ensures long { length due.new ≡ length due.old }
    ensures same { numbers.new ≡ numbers.old }
{
    if !all {
        gather_marked(due, cell_nodes, numbers);
    }
}

// Makes the nodes of the marked cells due.
fn gather_marked(due: &mut Flags, cell_nodes: &[u32], numbers: &mut Numbers)
    requires cells { length cell_nodes.now ≡ length numbers.old.watches.marked }
    requires few { length cell_nodes.now < 2 ^ 30 }
    requires within { (k : ℕ) → k < length cell_nodes.now → slice_index cell_nodes.now k < length due.old }
    ensures gathered { IsGathered cell_nodes.now numbers.old.watches.marked due.old due.new }
    ensures same { numbers.new ≡ numbers.old }
{
    let mut at = 0;
    while let Some(cell) = numbers.next_marked(at) {
        due.put(cell_nodes[cell] as usize, true);
        at = cell + 1;
    }
}

// For each node those that name it.
fn dependents_of(alloc: Global, nodes: &[Node]) -> Result<FlatRows, OutOfMemory>
    requires pool { IsPool nodes.now }
    requires few { length nodes.now < 2 ^ 30 }
    ensures { IfOk result (AreDependents nodes.now) }
{
    let mut entries = Vec::with_capacity(alloc, nodes.len())?;
    for (number, node) in nodes.iter().enumerate() {
        put_entries(&mut entries, number as u32, *node)?;
    }
    FlatRows::new(alloc, nodes.len() as u32, &entries)
}

// Puts the entries of a node at the end of others.
fn put_entries(entries: &mut Vec<Entry>, number: u32, node: Node) -> Result<(), OutOfMemory>
    ensures { OnOk result (entries.new.items ≡ entries.old.items ++ entries_of number node) }
{
    match node {
        Node::Const(_) => {}
        Node::Cell { pointer: row, .. } | Node::View { cell: row, .. } => {
            entries.push(Entry { row, number })?;
        }
        Node::Arith { left, right, .. } => {
            entries.push(Entry { row: left, number })?;
            entries.push(Entry { row: right, number })?;
        }
    }
    Ok(())
}

// The node of each cell, in order of first occurrence.
fn cell_nodes_of(alloc: Global, nodes: &[Node]) -> Result<Vec<u32>, OutOfMemory>
    requires pool { IsPool nodes.now }
    requires few { length nodes.now < 2 ^ 30 }
    ensures { IfOk result (λ cell_nodes. AreCellNodes nodes.now (length nodes.now) cell_nodes.items) }
{
    let mut cell_nodes = Vec::new(alloc);
    for (number, node) in nodes.iter().enumerate() {
        if let Node::Cell { .. } = node {
            cell_nodes.push(number as u32)?;
        }
    }
    Ok(cell_nodes)
}
