//! Where a table keeps the number of each cell and of each tracked mask.

ghost use Rattle.std.specs.Prelude.{◌≡◌, ◌<◌, ◌≤◌, ◌^◌, ℕ, length, map, slice_index, IfOk};
ghost use Rattle.ra_memory.specs.Image.{IsReadWidth};
ghost use Rattle.ra_indirect.specs.Pools.{cells_of};
ghost use Rattle.ra_indirect.specs.Interned.{IsPool, Interns};
ghost use Rattle.ra_memref.specs.Layout.{AreMasks, IsLaid, TakesSlot, mask_in};

use indexmap::IndexSet;
use ra_indirect::Node;
use ra_operand::{Kind, mask};
use ra_text::OutOfMemory;
use std::alloc::Global;

/// A mask of the cell that a node spells.
#[derive(Clone, Copy, Debug, PartialEq, Eq, Hash)]
pub struct TrackedMask {
    pub cell: u32,
    pub mask: u32,
}

/// The slot of each node, the address of each cell, and the tracked masks.
#[derive(Drop)]
pub struct Layout {
    pub slots: Vec<u32>,
    pub places: Vec<u32>,
    pub masks: IndexSet<TrackedMask>,
}

/// Lays out the cells and the tracked masks of a pool in order of first occurrence.
pub fn lay_out(alloc: Global, nodes: &[Node]) -> Result<Layout, OutOfMemory>
    requires pool { IsPool nodes.now }
    requires few { length nodes.now ≤ 2 ^ 31 }
    ensures slots { IfOk result (λ layout. IsLaid nodes.now layout.slots.items) }
    ensures places { IfOk result (λ layout. layout.places.items ≡ map (λ c. c.address) (cells_of nodes.now)) }
    ensures masks { IfOk result (λ layout. AreMasks nodes.now layout.masks.keys) }
{
    let mut slots = Vec::with_capacity(alloc, nodes.len())?;
    let mut places = Vec::new(alloc);
    let mut masks = IndexSet::new(alloc);
    for node in nodes {
        let slot = slot_of(*node, &mut places, &mut masks)?;
        slots.push(slot)?;
    }
    Ok(Layout {
        slots,
        places,
        masks,
    })
}

/// The mask that a node tracks, if it is a prior view.
pub fn mask_of(node: Node) -> Option<TrackedMask>
    ensures { result ≡ mask_in node }
{
    match node {
        Node::View { kind, size, cell } => match kind {
            Kind::Prior => Some(TrackedMask {
                cell,
                mask: mask(size),
            }),
            Kind::Mem | Kind::Delta | Kind::Bcd | Kind::Inverted => None,
        },
        Node::Cell { .. } | Node::Const(_) | Node::Arith { .. } => None,
    }
}

/// The width of each cell, in order of first occurrence.
pub fn widths_of(alloc: Global, nodes: &[Node]) -> Result<Vec<u8>, OutOfMemory>
    requires pool { IsPool nodes.now }
    ensures widths { IfOk result (λ widths. widths.items ≡ map (λ c. c.width) (cells_of nodes.now)) }
    ensures wide { IfOk result (λ widths. (k : ℕ) → k < length widths.items → IsReadWidth (slice_index widths.items k)) }
{
    let mut widths = Vec::new(alloc);
    for node in nodes {
        if let Node::Cell { width, .. } = node {
            widths.push(*width)?;
        }
    }
    Ok(widths)
}

// The slot that a node takes.
fn slot_of(
    node: Node,
    places: &mut Vec<u32>,
    masks: &mut IndexSet<TrackedMask>,
) -> Result<u32, OutOfMemory>
    requires places { length places.old.items < 2 ^ 31 }
    requires masks { length masks.old.keys < 2 ^ 31 }
    ensures { IfOk result (TakesSlot node places.old.items places.new.items masks.old.keys masks.new.keys) }
{
    match node {
        Node::Cell { offset, .. } => {
            let slot = places.len() as u32;
            places.push(offset)?;
            Ok(slot)
        }
        Node::View { kind, size, cell } => match kind {
            Kind::Prior => intern_mask(masks, cell, mask(size)),
            Kind::Mem | Kind::Delta | Kind::Bcd | Kind::Inverted => Ok(0),
        },
        Node::Const(_) | Node::Arith { .. } => Ok(0),
    }
}

// The place of a tracked mask, which goes last where it is new.
fn intern_mask(masks: &mut IndexSet<TrackedMask>, cell: u32, mask: u32) -> Result<u32, OutOfMemory>
    requires { length masks.old.keys < 2 ^ 31 }
    ensures { IfOk result (Interns masks.old.keys masks.new.keys (record { cell = cell; mask = mask })) }
{
    let (place, _) = masks.insert_full(TrackedMask { cell, mask })?;
    Ok(place as u32)
}
