/// Where numbers begin that have one line of a lookup, or none: docs/DEFINITIONS.md, "Presence over frames".
#[derive(Clone, Copy)]
pub struct Span {
    /// The first number of the span; it goes on up to the next span.
    pub from: u32,
    /// The index of the keys line that gives their text, if one does.
    pub line: Option<usize>,
}
