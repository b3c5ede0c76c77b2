/// What a frame shows of one condition: its comparison, its left and its right value, and its hits before the frame.
#[derive(Clone, Copy, Debug, PartialEq, Eq)]
pub struct Sight {
    /// Whether the comparison holds.
    pub truth: bool,
    /// The left value.
    pub left: u32,
    /// The right value.
    pub right: u32,
    /// The hits.
    pub hits: u32,
}
