use ra_condition::ValueText;

/// A piece of a display line: text as it is shown, or a macro.
#[derive(Drop)]
pub enum Piece {
    /// Text, at least one byte.
    Text(Vec<u8>),
    /// A macro by its name, which shows a value.
    Macro { name: Vec<u8>, value: ValueText },
}
