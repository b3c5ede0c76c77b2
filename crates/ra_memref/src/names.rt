//! The names of the cells and of the tracked masks of a pool.

ghost use Rattle.std.specs.Prelude.{◌≡◌, ◌<◌, ◌≤◌, true, false, length, map, replicate, IfOk};
ghost use Rattle.std.specs.Vec.{vec_capacity};
ghost use Rattle.ra_operand.specs.Same.{number_of_kind, number_of_size, number_of_op};
ghost use Rattle.ra_indirect.specs.Pools.{cells_of, tracked_of};
ghost use Rattle.ra_indirect.specs.Interned.{IsPool};
ghost use Rattle.ra_memref.specs.Layout.{IsLaid};
ghost use Rattle.ra_memref.specs.Names as spec;
ghost use Rattle.ra_memref.specs.Names.{tracked_name, name_with, NamesBelow};
ghost use Rattle.ra_memref.specs.Naming.{wanted_after, AreWanted, NameCells};

use crate::layout::{lay_out, mask_of};
use crate::name_room::NameRoom;
use crate::table::nodes_of;
use md5::{Digest, Md5};
use ra_indirect::{Node, Pool};
use ra_operand::{Kind, Op, Size};
use ra_text::OutOfMemory;
use std::alloc::Global;

/// Names of cells and of tracked masks: docs/DEFINITIONS.md, "Names of cells and masks".
#[derive(Drop)]
pub struct Names {
    /// A name for each cell.
    pub cells: Vec<[u8; 16]>,
    /// A name for each tracked mask.
    pub priors: Vec<[u8; 16]>,
}

/// The names of the cells and of the tracked masks of a pool, each in order of first occurrence:
/// docs/DEFINITIONS.md, "Names of cells and masks". Memory is the only refusal.
pub fn names_of(alloc: Global, pool: &Pool) -> Result<Names, OutOfMemory>
    ensures cells { IfOk result (λ names. names.cells.items ≡ map spec.cell_name (cells_of pool.now)) }
    ensures priors { IfOk result (λ names. names.priors.items ≡ map tracked_name (tracked_of pool.now)) }
{
    let nodes = nodes_of(alloc, pool)?;
    let layout = lay_out(alloc, &nodes)?;
    let mut room = NameRoom::new(alloc, nodes.len())?;
    let mut cells = vec![in alloc; [0; 16]; layout.places.len()]?;
    let mut priors = vec![in alloc; [0; 16]; layout.masks.len()]?;
    room.put_names(&nodes, &layout.slots, &mut cells, &mut priors);
    Ok(Names { cells, priors })
}

/// Puts which nodes are to have names: the cells, and what their pointers reach. It goes over them backwards.
pub fn put_wanted(wanted: &mut Vec<bool>, nodes: &[Node])
    requires pool { IsPool nodes.now }
    requires room { length nodes.now ≤ vec_capacity wanted.old }
    ensures wanted { AreWanted nodes.now wanted.new.items }
    ensures room { vec_capacity wanted.new ≡ vec_capacity wanted.old }
{
    put_unwanted(wanted, nodes.len());
    let mut left = nodes.len();
    while left > 0 {
        left -= 1;
        want(wanted, nodes[left], left);
    }
}

// Puts that none of this many nodes is to have a name.
fn put_unwanted(wanted: &mut Vec<bool>, count: usize)
    requires { count ≤ vec_capacity wanted.old }
    ensures none { wanted.new.items ≡ replicate count false }
    ensures room { vec_capacity wanted.new ≡ vec_capacity wanted.old }
{
    wanted.clear();
    while wanted.len() < count {
        wanted.push_reserved(false);
    }
}

// Marks a cell and its pointer, and what a marked node names.
fn want(wanted: &mut [bool], node: Node, number: usize)
    requires here { number < length wanted.old }
    requires below { NamesBelow number node }
    ensures { wanted.new ≡ wanted_after node number wanted.old }
{
    match node {
        Node::Const(_) => {}
        Node::Cell { pointer, .. } => {
            wanted[number] = true;
            wanted[pointer as usize] = true;
        }
        Node::View { cell, .. } => {
            if wanted[number] {
                wanted[cell as usize] = true;
            }
        }
        Node::Arith { left, right, .. } => {
            if wanted[number] {
                wanted[left as usize] = true;
                wanted[right as usize] = true;
            }
        }
    }
}

/// Puts the name of each node that is a cell or that a cell's pointer reaches, and zeros for the others.
pub fn put_node_names(names: &mut Vec<[u8; 16]>, nodes: &[Node], wanted: &[bool])
    requires pool { IsPool nodes.now }
    requires wanted { AreWanted nodes.now wanted.now }
    requires room { length nodes.now ≤ vec_capacity names.old }
    ensures names { NameCells nodes.now names.new.items }
    ensures room { vec_capacity names.new ≡ vec_capacity names.old }
{
    names.clear();
    for number in 0..nodes.len() {
        let name = name_where(wanted[number], nodes[number], names);
        names.push_reserved(name);
    }
}

/// Puts the names of the cells at their slots, from those of the nodes.
pub fn put_cells(nodes: &[Node], slots: &[u32], names: &[[u8; 16]], cells: &mut [[u8; 16]])
    requires pool { IsPool nodes.now }
    requires slots { IsLaid nodes.now slots.now }
    requires names { NameCells nodes.now names.now }
    requires long { length cells.old ≡ length (cells_of nodes.now) }
    ensures { cells.new ≡ map spec.cell_name (cells_of nodes.now) }
{
    for number in 0..nodes.len() {
        if let Node::Cell { .. } = nodes[number] {
            cells[slots[number] as usize] = names[number];
        }
    }
}

/// Puts the names of the tracked masks at their slots, from those of the nodes.
pub fn put_masks(nodes: &[Node], slots: &[u32], names: &[[u8; 16]], priors: &mut [[u8; 16]])
    requires pool { IsPool nodes.now }
    requires slots { IsLaid nodes.now slots.now }
    requires names { NameCells nodes.now names.now }
    requires long { length priors.old ≡ length (tracked_of nodes.now) }
    ensures { priors.new ≡ map tracked_name (tracked_of nodes.now) }
{
    for number in 0..nodes.len() {
        if let Some(tracked) = mask_of(nodes[number]) {
            let cell = &names[tracked.cell as usize];
            priors[slots[number] as usize] = mask_name(cell, tracked.mask);
        }
    }
}

// The name of a node that is to have one.
fn name_where(wanted: bool, node: Node, names: &[[u8; 16]]) -> [u8; 16]
    requires { NamesBelow (length names.now) node }
    ensures { wanted ≡ true → result ≡ name_with names.now node }
{
    if wanted {
        node_name(node, names)
    } else {
        [0; 16]
    }
}

// The name of a node, by the names of the nodes that it names.
fn node_name(node: Node, names: &[[u8; 16]]) -> [u8; 16]
    requires { NamesBelow (length names.now) node }
    ensures { result ≡ name_with names.now node }
{
    match node {
        Node::Const(number) => constant_name(number),
        Node::Cell {
            pointer,
            offset,
            width,
        } => cell_name(&names[pointer as usize], offset, width),
        Node::View { kind, size, cell } => view_name(kind, size, &names[cell as usize]),
        Node::Arith { op, left, right } => {
            join_name(op, &names[left as usize], &names[right as usize])
        }
    }
}

// "C" and the number.
fn constant_name(number: u32) -> [u8; 16]
    ensures { result ≡ spec.constant_name number }
{
    let mut hasher = Md5::new();
    hasher.update(b"C");
    hasher.update(&number.to_le_bytes());
    hasher.finalize()
}

// "M", the name of the pointer, the address, and the width. One piece costs least, as most names are of cells.
fn cell_name(pointer: &[u8; 16], address: u32, width: u8) -> [u8; 16]
    ensures { result ≡ spec.cell_name_by pointer.now address width }
{
    let [
        p0,
        p1,
        p2,
        p3,
        p4,
        p5,
        p6,
        p7,
        p8,
        p9,
        pa,
        pb,
        pc,
        pd,
        pe,
        pf,
    ] = *pointer;
    let [a0, a1, a2, a3] = address.to_le_bytes();
    let mut hasher = Md5::new();
    hasher.update(&[
        b'M', p0, p1, p2, p3, p4, p5, p6, p7, p8, p9, pa, pb, pc, pd, pe, pf, a0, a1, a2, a3, width,
    ]);
    hasher.finalize()
}

// "V", the kind, the size, and the name of the cell.
fn view_name(kind: Kind, size: Size, cell: &[u8; 16]) -> [u8; 16]
    ensures { result ≡ spec.view_name_by kind size cell.now }
{
    let mut hasher = Md5::new();
    hasher.update(b"V");
    hasher.update(&[kind_number(kind), size_number(size)]);
    hasher.update(cell);
    hasher.finalize()
}

// "O", the operator, and the names of both sides.
fn join_name(op: Op, left: &[u8; 16], right: &[u8; 16]) -> [u8; 16]
    ensures { result ≡ spec.join_name_by op left.now right.now }
{
    let mut hasher = Md5::new();
    hasher.update(b"O");
    hasher.update(&[op_number(op)]);
    hasher.update(left);
    hasher.update(right);
    hasher.finalize()
}

// "P", the name of the cell, and the mask.
fn mask_name(cell: &[u8; 16], mask: u32) -> [u8; 16]
    ensures { result ≡ spec.tracked_name_by cell.now mask }
{
    let mut hasher = Md5::new();
    hasher.update(b"P");
    hasher.update(cell);
    hasher.update(&mask.to_le_bytes());
    hasher.finalize()
}

// The place of a kind among the kinds, from 0.
fn kind_number(kind: Kind) -> u8
    ensures { result ≡ number_of_kind kind }
{
    kind as u8
}

// The place of a size among the sizes, from 0.
fn size_number(size: Size) -> u8
    ensures { result ≡ number_of_size size }
{
    size as u8
}

// The place of an operator among the operators, from 0.
fn op_number(op: Op) -> u8
    ensures { result ≡ number_of_op op }
{
    op as u8
}
