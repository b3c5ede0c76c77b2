use crate::kind::Kind;
use crate::size::Size;

/// An operand of a condition: docs/DEFINITIONS.md, "Operands".
#[derive(Clone, Copy, Debug, PartialEq, Eq, Hash)]
pub enum Operand {
    /// A view of the cell at an address, moved by the pointer of its condition.
    Cell(Kind, Size, u32),
    /// A constant; a negative one is kept as two's complement.
    Const(u32),
    /// The value that the latest Remember before it handed on.
    Recall,
}
