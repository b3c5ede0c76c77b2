use crate::flag::Flag;
use ra_operand::{Op, Operand};

/// One condition of a group: docs/DEFINITIONS.md, "Conditions".
///
/// Where `op` is `Bare`, `right` is `Const(0)` and `target` is 0.
#[derive(Clone, Copy, Debug, PartialEq, Eq)]
pub struct Condition {
    /// What the condition is for.
    pub flag: Flag,
    /// The comparison, or the arithmetic of a condition that hands a value on.
    pub op: Op,
    /// The left operand.
    pub left: Operand,
    /// The right operand.
    pub right: Operand,
    /// The hit target; 0 is no target.
    pub target: u32,
}
