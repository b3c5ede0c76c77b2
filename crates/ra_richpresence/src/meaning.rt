use ra_value_format::Format;

/// What a macro of a script shows: docs/DEFINITIONS.md, "Presence over frames".
#[derive(Clone, Copy)]
pub enum Meaning {
    /// The text that the lookup of this index has for the value.
    Lookup(usize),
    /// The value in this format.
    Format(Format),
    /// That the macro is unknown.
    Unknown,
}
