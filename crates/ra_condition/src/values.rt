//! Values: docs/DEFINITIONS.md, "Values".

ghost use Rattle.ra_condition.specs.Contents.{group_contents, part_contents, value_contents};
ghost use Rattle.ra_condition.specs.Fault.{GivesUnlessFull};
ghost use Rattle.ra_condition.specs.ReadingValues.{factor_at, measured_conditions_at, part_at, term_at, terms_at, times_at, value_at};
ghost use Rattle.ra_text.specs.Moves.{Moves};

use crate::conditions::{is_flag, take_condition, take_flagged};
use crate::fault::Fault;
use crate::group::Group;
use crate::part::{Part, Term};
use crate::setting::Setting;
use crate::value_text::ValueText;
use ra_operand::{Operand, take_operand};
use ra_text::{Cursor, Stop};
use std::alloc::Global;

/// Reads a value: docs/DEFINITIONS.md, "Values".
///
/// `Stop` exactly where what stands before the first byte that goes on with no value is no whole
/// value; the cursor then stands before that byte. `Memory` where there is no memory for it.
pub fn take_value(alloc: Global, cursor: &mut Cursor<'_>) -> Result<ValueText, Fault>
    ensures { GivesUnlessFull value_contents result cursor.new.rest.now (value_at cursor.old.rest.now) }
{
    let mut parts = Vec::new(alloc);
    parts.push(take_part(alloc, cursor)?)?;
    'others: while cursor.skip(b'$') {
        parts.push(take_part(alloc, cursor)?)?;
    }
    Ok(ValueText { parts })
}

// A part that begins with a flag is one of conditions.
#[tactic(auto, unfolding(crate::specs::ReadingValues::part_at, crate::specs::ReadingValues::condition_part_at, crate::specs::ReadingValues::term_part_at))]
fn take_part(alloc: Global, cursor: &mut Cursor<'_>) -> Result<Part, Fault>
    ensures { GivesUnlessFull part_contents result cursor.new.rest.now (part_at cursor.old.rest.now) }
{
    if is_flag(cursor.rest) {
        let group = take_measured_conditions(alloc, cursor)?;
        Ok(Part::Conditions(group))
    } else {
        let terms = take_terms(alloc, cursor)?;
        Ok(Part::Terms(terms))
    }
}

// vcond { "_" vcond }, where the first has a flag, and at least one is M or G
fn take_measured_conditions(alloc: Global, cursor: &mut Cursor<'_>) -> Result<Group, Fault>
    ensures { GivesUnlessFull group_contents result cursor.new.rest.now (measured_conditions_at cursor.old.rest.now) }
{
    let first = take_flagged(cursor, Setting::InValue)?;
    let mut measured = first.flag.is_measured();
    let mut conditions = Vec::new(alloc);
    conditions.push(first)?;
    'others: while cursor.skip(b'_') {
        let next = take_condition(cursor, Setting::InValue)?;
        measured = measured || next.flag.is_measured();
        conditions.push(next)?;
    }
    if measured {
        Ok(Group { conditions })
    } else {
        Err(Fault::Stop)
    }
}

// term { "_" term }
fn take_terms(alloc: Global, cursor: &mut Cursor<'_>) -> Result<Vec<Term>, Fault>
    ensures { GivesUnlessFull (λ terms. terms.items) result cursor.new.rest.now (terms_at cursor.old.rest.now) }
{
    let mut terms = Vec::new(alloc);
    terms.push(take_term(cursor)?)?;
    'others: while cursor.skip(b'_') {
        terms.push(take_term(cursor)?)?;
    }
    Ok(terms)
}

// operand [ "*" operand ]
#[tactic(auto, unfolding(crate::specs::ReadingValues::term_at))]
fn take_term(cursor: &mut Cursor<'_>) -> Result<Term, Stop>
    ensures { Moves result cursor.new.rest.now (term_at cursor.old.rest.now) }
{
    let operand = take_operand(cursor)?;
    let factor = take_factor(cursor)?;
    Ok(Term { operand, factor })
}

// [ "*" operand ]
#[tactic(auto, unfolding(crate::specs::ReadingValues::factor_at))]
fn take_factor(cursor: &mut Cursor<'_>) -> Result<Option<Operand>, Stop>
    ensures { Moves result cursor.new.rest.now (factor_at cursor.old.rest.now) }
{
    if cursor.is_at(b'*') {
        take_times(cursor)
    } else {
        Ok(None)
    }
}

// "*" operand
#[tactic(auto, unfolding(crate::specs::ReadingValues::times_at))]
fn take_times(cursor: &mut Cursor<'_>) -> Result<Option<Operand>, Stop>
    ensures { Moves result cursor.new.rest.now (times_at cursor.old.rest.now) }
{
    cursor.byte(b'*')?;
    Ok(Some(take_operand(cursor)?))
}
