/// So many bytes from an address on, of which each may have changed.
#[derive(Clone, Copy)]
pub struct ToldBytes {
    pub at: u32,
    pub count: u32,
}
