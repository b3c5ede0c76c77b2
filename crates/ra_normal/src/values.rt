//! Values in which each part is a condition part.

ghost use Rattle.std.specs.Prelude.{◌≡◌, IfOk};
ghost use Rattle.ra_condition.specs.Contents.{part_contents, value_contents};
ghost use Rattle.ra_normal.specs.Contents.{legacy_conditions, measured_zero, normal_part, normal_value, term_condition};

use ra_condition::{Condition, Flag, Group, Part, Term, ValueText};
use ra_operand::{Op, Operand};
use ra_text::OutOfMemory;
use std::alloc::Global;

/// The normal value of a value: docs/DEFINITIONS.md, "Normal text".
pub(crate) fn normal_value(alloc: Global, value: &ValueText) -> Result<ValueText, OutOfMemory>
    ensures { IfOk result (λ v. value_contents v ≡ normal_value (value_contents value.now)) }
{
    let mut parts = Vec::new(alloc);
    for part in &value.parts {
        parts.push(normal_part(alloc, part)?)?;
    }
    Ok(ValueText { parts })
}

// A part as a condition part.
fn normal_part(alloc: Global, part: &Part) -> Result<Part, OutOfMemory>
    ensures { IfOk result (λ p. part_contents p ≡ normal_part (part_contents part.now)) }
{
    let conditions = match part {
        Part::Terms(terms) => legacy_conditions(alloc, terms)?,
        Part::Conditions(group) => group.conditions.to_vec(alloc)?,
    };
    Ok(Part::Conditions(Group { conditions }))
}

// The conditions of legacy terms.
fn legacy_conditions(alloc: Global, terms: &[Term]) -> Result<Vec<Condition>, OutOfMemory>
    ensures { IfOk result (λ conditions. conditions.items ≡ legacy_conditions terms.now) }
{
    let mut conditions = Vec::new(alloc);
    for term in terms {
        conditions.push(term_condition(term))?;
    }
    conditions.push(measured_zero())?;
    Ok(conditions)
}

// A term as a condition that hands its value on.
fn term_condition(term: &Term) -> Condition
    ensures { result ≡ term_condition term.now }
{
    let (op, right) = match term.factor {
        Some(factor) => (Op::Mul, factor),
        None => (Op::Bare, Operand::Const(0)),
    };
    Condition {
        flag: Flag::AddSource,
        left: term.operand,
        op,
        right,
        target: 0,
    }
}

// The condition that measures the sum before it.
fn measured_zero() -> Condition
    ensures { result ≡ measured_zero }
{
    Condition {
        flag: Flag::Measured,
        left: Operand::Const(0),
        op: Op::Bare,
        right: Operand::Const(0),
        target: 0,
    }
}
