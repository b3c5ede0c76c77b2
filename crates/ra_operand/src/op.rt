/// The operator of a condition: none, a comparison without sign, or arithmetic modulo 2^32:
/// docs/DEFINITIONS.md, "Operators".
#[derive(Clone, Copy, Debug, PartialEq, Eq, Hash)]
pub enum Op {
    /// No operator, and no right operand.
    Bare,
    /// `=`.
    Eq,
    /// `!=`.
    Ne,
    /// `<`.
    Lt,
    /// `<=`.
    Le,
    /// `>`.
    Gt,
    /// `>=`.
    Ge,
    /// `*`.
    Mul,
    /// `/`, 0 for a divisor of 0.
    Div,
    /// `&`, bit by bit.
    And,
    /// `^`, bit by bit.
    Xor,
    /// `%`, 0 for a divisor of 0.
    Rem,
    /// `+`.
    Add,
    /// `-`.
    Sub,
}
