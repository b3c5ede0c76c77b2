/// What `why` says: docs/DEFINITIONS.md, "Jobs for authors".
#[derive(Drop)]
pub struct Reply {
    /// The status, where nothing fails.
    pub status: u8,
    /// All that is printed.
    pub text: Vec<u8>,
}
