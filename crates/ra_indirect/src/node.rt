use ra_operand::{Kind, Op, Size};

/// A node of a pool: docs/DEFINITIONS.md, "Trees, cells and tracked masks". It names earlier nodes
/// by their numbers.
#[derive(Clone, Copy, Debug, PartialEq, Eq)]
pub enum Node {
    /// A constant.
    Const(u32),
    /// A cell at an offset from what the pointer's node gives, of a width of 1, 2 or 4 bytes.
    Cell {
        width: u8,
        pointer: u32,
        offset: u32,
    },
    /// A view of the cell that the node `cell` spells.
    View {
        kind: Kind,
        size: Size,
        cell: u32,
    },
    /// An arithmetic operator over the values of two nodes.
    Arith {
        op: Op,
        left: u32,
        right: u32,
    },
}
