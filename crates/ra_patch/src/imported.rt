use ra_set::Set;

/// What a document gives: docs/DEFINITIONS.md, "Sets from JSON".
#[derive(Drop)]
pub struct Imported {
    /// The set file.
    pub text: Vec<u8>,
    /// The set of this file.
    pub set: Set,
}
