use crate::script::Script;

/// A script, and how long the first of its texts is that passes a limit: docs/DEFINITIONS.md,
/// "Lookup texts".
#[derive(Drop)]
pub struct ReadScript {
    /// The script.
    pub script: Script,
    /// The length, in bytes, of the first text of a kept lookup, in file order, that is longer than
    /// the limit, if one is.
    pub long: Option<u64>,
}
