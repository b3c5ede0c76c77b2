/// What a job says: docs/DEFINITIONS.md, "Jobs for authors".
#[derive(Drop)]
pub struct Answer {
    /// The status, where nothing fails.
    pub status: u8,
    /// All that it prints.
    pub text: Vec<u8>,
    /// The file that it puts before it prints, if it puts one.
    pub saved: Option<Vec<u8>>,
}
