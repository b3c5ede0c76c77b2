/// Where a condition stands. Only in a value may a Measured stand without an operator.
#[derive(Clone, Copy, Debug, PartialEq, Eq)]
pub enum Setting {
    /// In a group of a trigger.
    InTrigger,
    /// In a part of a value.
    InValue,
}
