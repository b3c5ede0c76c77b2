/// Where the next hits and the next numbers stand in the bytes of a progress file, or how many hits and
/// numbers there are.
#[derive(Clone, Copy)]
pub struct Places {
    pub hits: usize,
    pub numbers: usize,
}
