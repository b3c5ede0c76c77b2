/// A write passes the end of the memory, and nothing was written.
#[derive(Clone, Copy, Debug, PartialEq, Eq)]
pub struct OutOfRange;
