/// At which number of its cell an operand looks, and what it makes of the view:
/// docs/DEFINITIONS.md, "Kinds of operands".
#[derive(Clone, Copy, Debug, PartialEq, Eq, Hash)]
pub enum Kind {
    /// The number at this frame.
    Mem,
    /// The number at the frame before.
    Delta,
    /// The number before the latest change.
    Prior,
    /// The hexadecimal digits of the view, read as decimal ones.
    Bcd,
    /// The bits of the view, flipped.
    Inverted,
}
