/// How a group is stepped: docs/DEFINITIONS.md, "Trees of a group".
#[derive(Drop)]
pub struct GroupPlan {
    /// The places of the conditions in the group's text, from 0, in pass order.
    pub order: Vec<u32>,
    /// For each group, how many of its conditions stand in pause chains: they come first in `order`.
    pub pauses: Vec<u32>,
    /// For each condition, in text order, the number of the node of its left tree.
    pub lefts: Vec<u32>,
    /// For each condition, in text order, the number of the node of its right tree.
    pub rights: Vec<u32>,
}
