//! The parts of a value: legacy terms, or a group of conditions that measures.

use crate::group::Group;
use ra_operand::Operand;

/// A legacy term: an operand, and a factor where it has one.
#[derive(Clone, Copy, Debug, PartialEq, Eq)]
pub struct Term {
    /// The operand.
    pub operand: Operand,
    /// What it is multiplied by.
    pub factor: Option<Operand>,
}

/// A part of a value: docs/DEFINITIONS.md, "Values".
#[derive(Drop)]
pub enum Part {
    /// Legacy terms, whose sum counts; there is at least one.
    Terms(Vec<Term>),
    /// A group whose measured number counts.
    Conditions(Group),
}
