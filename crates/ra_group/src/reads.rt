/// What a step of some groups reads, one group after the other: `orders`, `truths` and `lefts` have an
/// entry for each condition, and `pauses` one for each group.
#[derive(Clone, Copy)]
pub struct Reads<'a> {
    /// The pass order of each group, as places in its text.
    pub orders: &'a [u32],
    /// How many conditions of each group stand in pause chains.
    pub pauses: &'a [u32],
    /// Whether each comparison holds.
    pub truths: &'a [bool],
    /// The left values.
    pub lefts: &'a [u32],
}
