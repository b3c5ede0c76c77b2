//! The cells of a set that no pointer moves.

ghost use Rattle.std.specs.Prelude.{◌≡◌, ◌<◌, length, IfOk};
ghost use Rattle.std.specs.Option.{option_to_list};
ghost use Rattle.ra_indirect.specs.Interned.{IsPool};
ghost use Rattle.ra_indirect.specs.Pools.{MayFollow, cells_of};
ghost use Rattle.ra_set.specs.Contents.{set_contents};
ghost use Rattle.ra_set.specs.Limits.{IsWithinLimits};
ghost use Rattle.ra_set.specs.Spelled.{IsSpelled};
ghost use Rattle.ra_meaning.specs.Order.{set_cells};
ghost use Rattle.ra_runtime.specs.Cells as spec;
ghost use Rattle.ra_runtime.specs.Cells.{direct_of};

use ra_display::counted_presence;
use ra_indirect::{Node, Pool};
use ra_items::new_runs;
use ra_memref::nodes_of;
use ra_set::Set;
use ra_text::OutOfMemory;
use std::alloc::Global;

/// A cell that lies at one place at every frame: docs/DEFINITIONS.md, "Calls from C".
#[derive(Clone, Copy, Debug, PartialEq, Eq)]
pub struct DirectCell {
    /// The address of its first byte.
    pub place: u32,
    /// Its width: 1, 2 or 4 bytes.
    pub width: u8,
}

/// The cells of a set whose pointers are constants, in order of first occurrence: docs/DEFINITIONS.md, "Calls from C".
/// Memory is the only refusal.
pub fn direct_cells(alloc: Global, set: &Set) -> Result<Vec<DirectCell>, OutOfMemory>
    requires limits { IsWithinLimits (set_contents set.now) }
    requires spelled { IsSpelled (set_contents set.now) }
    ensures { IfOk result (λ cells. cells.items ≡ direct_of (set_cells (set_contents set.now))) }
{
    let mut pool = Pool::new(alloc);
    let _runs = new_runs(alloc, &set.items, &mut pool)?;
    let _presence = counted_presence(alloc, &set.script, &mut pool)?;
    let nodes = nodes_of(alloc, &pool)?;
    direct_in(alloc, &nodes)
}

// The direct cells of a pool.
fn direct_in(alloc: Global, nodes: &[Node]) -> Result<Vec<DirectCell>, OutOfMemory>
    requires { IsPool nodes.now }
    ensures { IfOk result (λ cells. cells.items ≡ direct_of (cells_of nodes.now)) }
{
    let mut cells = Vec::new(alloc);
    for number in 0..nodes.len() {
        if let Some(cell) = direct_at(nodes, nodes[number]) {
            cells.push(cell)?;
        }
    }
    Ok(cells)
}

// The direct cell that a node is, if it is one.
fn direct_at(nodes: &[Node], node: Node) -> Option<DirectCell>
    requires { MayFollow nodes.now node }
    ensures { option_to_list result ≡ spec.direct_in nodes.now node }
{
    let Node::Cell {
        pointer,
        offset,
        width,
    } = node
    else {
        return None;
    };
    match nodes[pointer as usize] {
        Node::Const(number) => Some(DirectCell {
            place: offset.wrapping_add(number),
            width,
        }),
        _ => None,
    }
}
