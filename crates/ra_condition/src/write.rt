//! The canonical text of triggers and values, at the end of a text: docs/DEFINITIONS.md, "Canonical text".

ghost use Rattle.std.specs.Prelude.{◌≡◌, ◌++◌, OnOk, string_bytes};
ghost use Rattle.ra_condition.specs.Canonical.{condition_text, factor_text, flag_text, group_text, joined_text, op_text, part_text, tail_text, target_text, term_text, trigger_text, value_text};
ghost use Rattle.ra_condition.specs.Contents.{group_contents, part_contents, trigger_contents, value_contents};

use crate::condition::Condition;
use crate::flag::Flag;
use crate::part::{Part, Term};
use crate::trigger_text::TriggerText;
use crate::value_text::ValueText;
use ra_operand::{Op, Operand, write_operand};
use std::alloc::AllocError;
use std::fmt::Write;

// The letter of a flag and a colon.
fn flag_letter(flag: Flag) -> &'static str
    ensures { result.now ≡ flag_text flag }
{
    match flag {
        Flag::Plain => "",
        Flag::PauseIf => "P:",
        Flag::ResetIf => "R:",
        Flag::AddSource => "A:",
        Flag::SubSource => "B:",
        Flag::AddHits => "C:",
        Flag::SubHits => "D:",
        Flag::AndNext => "N:",
        Flag::OrNext => "O:",
        Flag::Measured => "M:",
        Flag::MeasuredPercent => "G:",
        Flag::MeasuredIf => "Q:",
        Flag::AddAddress => "I:",
        Flag::TriggerIf => "T:",
        Flag::ResetNextIf => "Z:",
        Flag::Remember => "K:",
    }
}

// The sign of an operator.
fn sign(op: Op) -> &'static str
    ensures { result.now ≡ op_text op }
{
    match op {
        Op::Bare => "",
        Op::Eq => "=",
        Op::Ne => "!=",
        Op::Lt => "<",
        Op::Le => "<=",
        Op::Gt => ">",
        Op::Ge => ">=",
        Op::Mul => "*",
        Op::Div => "/",
        Op::And => "&",
        Op::Xor => "^",
        Op::Rem => "%",
        Op::Add => "+",
        Op::Sub => "-",
    }
}

// A target between points, and nothing for none.
fn write_target(text: &mut String, target: u32) -> Result<(), AllocError>
    ensures { OnOk result (string_bytes text.new ≡ string_bytes text.old ++ target_text target) }
{
    if target == 0 {
        Ok(())
    } else {
        write!(text, ".{target}.")
    }
}

// The operator with what follows it, and nothing without an operator.
fn write_tail(text: &mut String, op: Op, right: &Operand, target: u32) -> Result<(), AllocError>
    ensures { OnOk result (string_bytes text.new ≡ string_bytes text.old ++ tail_text op right.now target) }
{
    if matches!(op, Op::Bare) {
        return Ok(());
    }
    text.push_str(sign(op))?;
    write_operand(text, right)?;
    write_target(text, target)
}

// A condition.
fn write_condition(text: &mut String, condition: &Condition) -> Result<(), AllocError>
    ensures { OnOk result (string_bytes text.new ≡ string_bytes text.old ++ condition_text condition.now) }
{
    text.push_str(flag_letter(condition.flag))?;
    write_operand(text, &condition.left)?;
    write_tail(text, condition.op, &condition.right, condition.target)
}

// Conditions with `_` between them.
fn write_conditions(text: &mut String, conditions: &[Condition]) -> Result<(), AllocError>
    ensures { OnOk result (string_bytes text.new ≡ string_bytes text.old ++ group_text conditions.now) }
{
    let Some((first, others)) = conditions.split_first() else {
        return Ok(());
    };
    write_condition(text, first)?;
    for other in others {
        text.push_str("_")?;
        write_condition(text, other)?;
    }
    Ok(())
}

// A term.
fn write_term(text: &mut String, term: &Term) -> Result<(), AllocError>
    ensures { OnOk result (string_bytes text.new ≡ string_bytes text.old ++ term_text term.now) }
{
    write_operand(text, &term.operand)?;
    if let Some(factor) = &term.factor {
        text.push_str("*")?;
        write_operand(text, factor)?;
    }
    Ok(())
}

// Terms with `_` between them.
fn write_terms(text: &mut String, terms: &[Term]) -> Result<(), AllocError>
    ensures { OnOk result (string_bytes text.new ≡ string_bytes text.old ++ joined_text 95 term_text terms.now) }
{
    let Some((first, others)) = terms.split_first() else {
        return Ok(());
    };
    write_term(text, first)?;
    for other in others {
        text.push_str("_")?;
        write_term(text, other)?;
    }
    Ok(())
}

/// Writes the canonical text of a trigger at the end of a text.
pub fn write_trigger(text: &mut String, trigger: &TriggerText) -> Result<(), AllocError>
    ensures { OnOk result (string_bytes text.new ≡ string_bytes text.old ++ trigger_text (trigger_contents trigger.now)) }
{
    write_conditions(text, &trigger.core.conditions)?;
    for alt in &trigger.alts {
        text.push_str("S")?;
        write_conditions(text, &alt.conditions)?;
    }
    Ok(())
}

// A part of a value.
fn write_part(text: &mut String, part: &Part) -> Result<(), AllocError>
    ensures { OnOk result (string_bytes text.new ≡ string_bytes text.old ++ part_text (part_contents part.now)) }
{
    match part {
        Part::Terms(terms) => write_terms(text, terms),
        Part::Conditions(group) => write_conditions(text, &group.conditions),
    }
}

/// Writes the canonical text of a value at the end of a text.
pub fn write_value(text: &mut String, value: &ValueText) -> Result<(), AllocError>
    ensures { OnOk result (string_bytes text.new ≡ string_bytes text.old ++ value_text (value_contents value.now)) }
{
    let Some((first, others)) = value.parts.split_first() else {
        return Ok(());
    };
    write_part(text, first)?;
    for other in others {
        text.push_str("$")?;
        write_part(text, other)?;
    }
    Ok(())
}
