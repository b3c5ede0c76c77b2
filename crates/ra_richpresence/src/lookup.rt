//! Lookups: texts by ranges of numbers.

/// A keys line: docs/DEFINITIONS.md, "Presence scripts".
#[derive(Drop)]
pub struct Keys {
    /// The ranges, each from its first to its last number; one that ends below its start holds
    /// nothing.
    pub ranges: Vec<(u32, u32)>,
    /// The text of these numbers, after its escapes; it may be empty.
    pub text: Vec<u8>,
}

/// A lookup: docs/DEFINITIONS.md, "Presence scripts".
#[derive(Drop)]
pub struct Lookup {
    /// The name.
    pub name: Vec<u8>,
    /// The keys lines in text order; the first that holds a number gives its text.
    pub keys: Vec<Keys>,
    /// The text of all other numbers, if the lookup has one.
    pub rest: Option<Vec<u8>>,
}
