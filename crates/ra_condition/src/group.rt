use crate::condition::Condition;

/// Conditions that are judged together, in text order.
#[derive(Drop)]
pub struct Group {
    /// The conditions; there may be none.
    pub conditions: Vec<Condition>,
}
