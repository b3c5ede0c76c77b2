use crate::left_out::LeftOut;

/// What is left of a document: docs/DEFINITIONS.md, "What is left of a document".
#[derive(Drop)]
pub struct Left {
    /// The set file of what stays.
    pub text: Vec<u8>,
    /// What is left out: achievements, then leaderboards, then the presence string.
    pub left_out: Vec<LeftOut>,
}
