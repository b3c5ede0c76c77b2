use crate::row::Row;

/// A frame to be noted: its number, counted from 0, how many bytes the memory has, and what it shows of some conditions.
#[derive(Clone, Copy)]
pub struct FrameRow<'a> {
    /// The number of the frame.
    pub at: u64,
    /// The size of the memory.
    pub size: u32,
    /// What the frame shows.
    pub row: Row<'a>,
}
