use crate::kept_lines::KeptLines;

/// The lines of a file, all or those before its presence script.
#[derive(Drop)]
pub struct FileLines {
    /// What is kept of the lines.
    pub kept: KeptLines,
    /// A line `P` comes after them.
    pub has_script: bool,
}
