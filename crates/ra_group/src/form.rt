/// Where a group stands, which decides what its Measured conditions measure: docs/DEFINITIONS.md,
/// "Group outcome".
#[derive(Clone, Copy, Debug, PartialEq, Eq)]
pub enum Form {
    /// In a trigger: the total up to the target, or the left value without a target.
    InTrigger,
    /// In a value: the total up to a target, or the left value without an operator.
    InValue,
}
