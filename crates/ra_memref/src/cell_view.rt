use ra_operand::{Kind, Size};

/// A view, and the node of its cell.
#[derive(Clone, Copy)]
pub struct CellView {
    pub kind: Kind,
    pub size: Size,
    pub cell: usize,
}
