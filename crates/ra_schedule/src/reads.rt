//! What triggers and values are woken by, noted for a reader: docs/INTERNALS.md, "Signals".

ghost use Rattle.std.specs.Prelude.{◌≡◌, ◌++◌, ◌<◌, true, [], length, map, slice_index_or, IfOk, IsFalse, OnOk};
ghost use Rattle.ra_operand.specs.declared.op.Op.TheVariants.{Bare};
ghost use Rattle.ra_condition.specs.Contents.{counted_in, group_contents, groups_of, trigger_contents, value_contents};
ghost use Rattle.ra_group.specs.declared.form.Form.TheVariants.{InTrigger, InValue};
ghost use Rattle.ra_member.specs.Runs.{IsLaid, IsValueRun, MayFill};
ghost use Rattle.ra_member.specs.Readings.{AreValuedSums};
ghost use Rattle.ra_schedule.specs.Given as spec;
ghost use Rattle.ra_schedule.specs.Given.{AreGiven, given_in, given_by};
ghost use Rattle.ra_schedule.specs.Inputs.{SeeSame, ValueSeesSame};
ghost use Rattle.ra_schedule.specs.Signals as heard;
ghost use Rattle.ra_schedule.specs.Signals.{AreHeard, AreSumsRead, Hears, IsGivenRead, KeepsAll, comparison_in};
ghost use Rattle.ra_schedule.specs.Waking.{IsTold};

use crate::signals::Signals;
use ra_condition::{Condition, Group, Part, TriggerText, ValueText};
use ra_group::Form;
use ra_member::{Laid, ValueRun};
use ra_memref::Table;
use ra_operand::Op;
use ra_text::OutOfMemory;
use ra_truths::Comparison;
use std::alloc::Global;

/// Notes that a reader reads what a trigger needs: each comparison that may come out otherwise, and each left value
/// that is given as a number. Memory is the only refusal.
pub fn note_trigger(
    signals: &mut Signals,
    text: &TriggerText,
    laid: &Laid,
    table: &Table,
    reader: u32,
) -> Result<(), OutOfMemory>
    requires laid { IsLaid table.now.nodes (groups_of (trigger_contents text.now)) laid.now }
    requires nodes { length table.now.nodes ≡ signals.old.nodes }
    requires reader { reader < length signals.old.readers.due }
    ensures keeps { OnOk result (KeepsAll table.now.nodes signals.old signals.new) }
    ensures told { OnOk result (IsTold (λ now later. SeeSame InTrigger now later (groups_of (trigger_contents text.now)))
        table.now.nodes signals.new.comparisons signals.new.readers reader) }
{
    let given = trigger_given(signals.alloc(), text)?;
    note_laid(signals, laid, &given, table, reader)?;
    Ok(())
}

/// Notes that a reader reads what a value needs: what its conditions need, and its legacy sums. Memory is the only
/// refusal.
pub fn note_value(
    signals: &mut Signals,
    text: &ValueText,
    run: &ValueRun,
    table: &Table,
    reader: u32,
) -> Result<(), OutOfMemory>
    requires run { IsValueRun table.now.nodes (value_contents text.now) run.now }
    requires nodes { length table.now.nodes ≡ signals.old.nodes }
    requires reader { reader < length signals.old.readers.due }
    ensures keeps { OnOk result (KeepsAll table.now.nodes signals.old signals.new) }
    ensures told { OnOk result (IsTold (λ now later. ValueSeesSame now later (value_contents text.now))
        table.now.nodes signals.new.comparisons signals.new.readers reader) }
{
    let given = value_given(signals.alloc(), text)?;
    note_laid(signals, &run.laid, &given, table, reader)?;
    note_sums(signals, &run.nodes, table, reader)?;
    Ok(())
}

// Notes that a reader reads what the conditions of a laid plan need, by a flag for each that gives its left value. Flags
// that are missing are not set.
fn note_laid(
    signals: &mut Signals,
    laid: &Laid,
    given: &[bool],
    table: &Table,
    reader: u32,
) -> Result<(), OutOfMemory>
    requires fills { MayFill table.now.nodes laid.now }
    requires nodes { length table.now.nodes ≡ signals.old.nodes }
    requires reader { reader < length signals.old.readers.due }
    ensures keeps { OnOk result (KeepsAll table.now.nodes signals.old signals.new) }
    ensures heard { OnOk result (AreHeard signals.new laid.now (length laid.now.ops) reader) }
    ensures read { OnOk result (IsGivenRead given.now laid.now (length laid.now.ops) signals.new.readers reader) }
{
    for place in 0..laid.len() {
        note_compared(signals, laid, place, table, reader)?;
        if place < given.len() && given[place] {
            signals.note_node(laid.side(place).left, reader)?;
        }
    }
    Ok(())
}

// Notes that a reader reads the comparison of the condition at a place of a laid plan, where it may come out otherwise.
fn note_compared(
    signals: &mut Signals,
    laid: &Laid,
    place: usize,
    table: &Table,
    reader: u32,
) -> Result<(), OutOfMemory>
    requires fills { MayFill table.now.nodes laid.now }
    requires here { place < length laid.now.ops }
    requires nodes { length table.now.nodes ≡ signals.old.nodes }
    requires reader { reader < length signals.old.readers.due }
    ensures keeps { OnOk result (KeepsAll table.now.nodes signals.old signals.new) }
    ensures heard { OnOk result (heard.is_comparing (slice_index_or laid.now.ops place Bare) ≡ true
        → Hears signals.new (comparison_in laid.now place) reader) }
{
    let sides = laid.side(place);
    if is_comparing(sides.op) {
        let comparison = Comparison {
            op: sides.op,
            left: sides.left,
            right: sides.right,
        };
        return signals.note_comparison(comparison, reader);
    }
    Ok(())
}

// Notes that a reader reads the nodes that are there.
fn note_sums(
    signals: &mut Signals,
    nodes: &[Option<u32>],
    table: &Table,
    reader: u32,
) -> Result<(), OutOfMemory>
    requires valued { AreValuedSums table.now.nodes nodes.now }
    requires nodes { length table.now.nodes ≡ signals.old.nodes }
    requires reader { reader < length signals.old.readers.due }
    ensures keeps { OnOk result (KeepsAll table.now.nodes signals.old signals.new) }
    ensures read { OnOk result (AreSumsRead nodes.now (length nodes.now) signals.new.readers reader) }
{
    for node in nodes {
        if let Some(node) = node {
            signals.note_node(*node, reader)?;
        }
    }
    Ok(())
}

// Whether a comparison by the operator may come out one way and the other.
fn is_comparing(op: Op) -> bool
    ensures { result ≡ heard.is_comparing op }
{
    matches!(op, Op::Eq | Op::Ne | Op::Lt | Op::Le | Op::Gt | Op::Ge)
}

// Whether each condition of a trigger gives its left value as a number, the core group's first. Where none does, which is
// usual, the flags are missing and take no memory.
fn trigger_given(alloc: Global, text: &TriggerText) -> Result<Vec<bool>, OutOfMemory>
    ensures { IfOk result (λ given. AreGiven given.items (given_by InTrigger (groups_of (trigger_contents text.now)))) }
{
    let mut given = Vec::new(alloc);
    if !trigger_gives(text) {
        return Ok(given);
    }
    put_given(&mut given, Form::InTrigger, &text.core)?;
    for alt in &text.alts {
        put_given(&mut given, Form::InTrigger, alt)?;
    }
    Ok(given)
}

// Whether a condition of a trigger gives its left value as a number.
fn trigger_gives(text: &TriggerText) -> bool
    ensures { IsFalse result → AreGiven [] (given_by InTrigger (groups_of (trigger_contents text.now))) }
{
    if group_gives(&text.core) {
        return true;
    }
    for alt in &text.alts {
        if group_gives(alt) {
            return true;
        }
    }
    false
}

// Whether a condition of a trigger's group does.
fn group_gives(group: &Group) -> bool
    ensures { IsFalse result → AreGiven [] (given_in InTrigger (group_contents group.now)) }
{
    for condition in &group.conditions {
        if gives_left(Form::InTrigger, condition) {
            return true;
        }
    }
    false
}

// The same of the conditions of a value's parts.
fn value_given(alloc: Global, text: &ValueText) -> Result<Vec<bool>, OutOfMemory>
    ensures { IfOk result (λ given. given.items ≡ given_by InValue (map counted_in (value_contents text.now))) }
{
    let mut given = Vec::new(alloc);
    for part in &text.parts {
        if let Part::Conditions(group) = part {
            put_given(&mut given, Form::InValue, group)?;
        }
    }
    Ok(given)
}

// The same of the conditions of a group.
fn put_given(given: &mut Vec<bool>, form: Form, group: &Group) -> Result<(), OutOfMemory>
    ensures { OnOk result (given.new.items ≡ given.old.items ++ given_in form (group_contents group.now)) }
{
    for condition in &group.conditions {
        given.push(gives_left(form, condition))?;
    }
    Ok(())
}

// Whether a condition gives its left value as a number: docs/INTERNALS.md, "Numbers that a step needs".
fn gives_left(form: Form, condition: &Condition) -> bool
    ensures { result ≡ spec.gives_left form condition.now }
{
    condition.flag.is_measured()
        && match form {
            Form::InTrigger => condition.target == 0,
            Form::InValue => matches!(condition.op, Op::Bare),
        }
}
