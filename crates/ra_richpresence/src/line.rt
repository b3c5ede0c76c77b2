use crate::piece::Piece;
use ra_condition::TriggerText;

/// A display line: docs/DEFINITIONS.md, "Presence scripts". The last of a script has no test, and
/// all others have one.
#[derive(Drop)]
pub struct Line {
    /// The test.
    pub test: Option<TriggerText>,
    /// The pieces in text order, no two texts side by side; there may be none.
    pub pieces: Vec<Piece>,
}
