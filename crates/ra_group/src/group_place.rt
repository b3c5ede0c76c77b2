/// Where a group stands among several.
#[derive(Clone, Copy)]
pub struct GroupPlace {
    /// The number of the group, counted from 0.
    pub number: usize,
    /// How many conditions stand before it.
    pub start: usize,
}
