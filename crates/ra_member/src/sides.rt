use ra_operand::Op;

/// What a condition compares: its operator, and the nodes of its left and of its right side.
#[derive(Clone, Copy)]
pub struct Sides {
    pub op: Op,
    pub left: u32,
    pub right: u32,
}
