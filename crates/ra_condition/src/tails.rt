//! Targets, and what follows a left operand: docs/DEFINITIONS.md, "Conditions".

ghost use Rattle.std.specs.Prelude.{◌≡◌};
ghost use Rattle.ra_condition.specs.Reading.{begins_comparison, between_at, compared_at, compared_or_bare_at, computed_at, ignored_at, modified_at, tail_at, target_at};
ghost use Rattle.ra_text.specs.Moves.{Moves};
ghost use Rattle.ra_text.specs.Reading.{begins, one_at};
ghost use Rattle.ra_text.specs.Table.{is_in, lookup};
ghost use Rattle.ra_condition.specs.Grammar.{operators};

use crate::comparison::take_comparison;
use crate::tables::operator_of;
use crate::tail::Tail;
use ra_operand::{Op, take_operand};
use ra_text::{Cursor, Stop};

// What follows the left operand, by what the flag asks for.
#[inline(always)]
pub fn take_tail(cursor: &mut Cursor<'_>, hands_on: bool, stands_bare: bool) -> Result<Tail, Stop>
    ensures { Moves result cursor.new.rest.now (tail_at hands_on stands_bare cursor.old.rest.now) }
{
    if hands_on {
        take_modified(cursor)
    } else if stands_bare {
        take_compared_or_bare(cursor)
    } else {
        take_compared(cursor)
    }
}

// [(cmp | arith) operand [target]], of which a comparison is ignored
#[tactic(auto, unfolding(crate::specs::Reading::modified_at, crate::specs::Reading::computed_or_bare_at))]
#[inline(never)]
fn take_modified(cursor: &mut Cursor<'_>) -> Result<Tail, Stop>
    ensures { Moves result cursor.new.rest.now (modified_at cursor.old.rest.now) }
{
    if is_comparison(cursor.rest) {
        take_ignored(cursor)
    } else if is_operator(cursor.rest) {
        take_computed(cursor)
    } else {
        Ok(Tail::nothing())
    }
}

// [cmp operand [target]]
#[tactic(auto, unfolding(crate::specs::Reading::compared_or_bare_at))]
#[inline(never)]
fn take_compared_or_bare(cursor: &mut Cursor<'_>) -> Result<Tail, Stop>
    ensures { Moves result cursor.new.rest.now (compared_or_bare_at cursor.old.rest.now) }
{
    if is_comparison(cursor.rest) {
        take_compared(cursor)
    } else {
        Ok(Tail::nothing())
    }
}

// cmp operand [target]
#[tactic(auto, unfolding(crate::specs::Reading::compared_at))]
#[inline(always)]
fn take_compared(cursor: &mut Cursor<'_>) -> Result<Tail, Stop>
    ensures { Moves result cursor.new.rest.now (compared_at cursor.old.rest.now) }
{
    let op = take_comparison(cursor)?;
    let right = take_operand(cursor)?;
    let target = take_target(cursor)?;
    Ok(Tail { op, right, target })
}

// cmp operand [target], which is ignored
#[tactic(auto, unfolding(crate::specs::Reading::ignored_at))]
fn take_ignored(cursor: &mut Cursor<'_>) -> Result<Tail, Stop>
    ensures { Moves result cursor.new.rest.now (ignored_at cursor.old.rest.now) }
{
    take_compared(cursor)?;
    Ok(Tail::nothing())
}

// arith operand [target], whose target is ignored
#[tactic(auto, unfolding(crate::specs::Reading::computed_at))]
fn take_computed(cursor: &mut Cursor<'_>) -> Result<Tail, Stop>
    ensures { Moves result cursor.new.rest.now (computed_at cursor.old.rest.now) }
{
    let op = take_operator(cursor)?;
    let right = take_operand(cursor)?;
    take_target(cursor)?;
    Ok(Tail {
        op,
        right,
        target: 0,
    })
}

// arith
fn take_operator(cursor: &mut Cursor<'_>) -> Result<Op, Stop>
    ensures { Moves result cursor.new.rest.now (one_at (lookup operators) cursor.old.rest.now) }
{
    if let [byte, after @ ..] = cursor.rest {
        if let Some(op) = operator_of(*byte) {
            cursor.rest = after;
            return Ok(op);
        }
    }
    Err(Stop)
}

// Whether a comparison is next.
fn is_comparison(text: &[u8]) -> bool
    ensures { result ≡ begins_comparison text.now }
{
    match text {
        [byte, ..] => matches!(*byte, b'=' | b'!' | b'<' | b'>'),
        [] => false,
    }
}

// Whether an arithmetic operator is next.
fn is_operator(text: &[u8]) -> bool
    ensures { result ≡ begins (is_in (lookup operators)) text.now }
{
    match text {
        [byte, ..] => operator_of(*byte).is_some(),
        [] => false,
    }
}

// [target], where none is 0
#[tactic(auto, unfolding(crate::specs::Reading::target_at, crate::specs::Reading::bracketed_or_none_at, crate::specs::Reading::dotted_at, crate::specs::Reading::bracketed_at))]
#[inline(always)]
fn take_target(cursor: &mut Cursor<'_>) -> Result<u32, Stop>
    ensures { Moves result cursor.new.rest.now (target_at cursor.old.rest.now) }
{
    if cursor.is_at(b'.') {
        take_between(cursor, b'.', b'.')
    } else if cursor.is_at(b'(') {
        take_between(cursor, b'(', b')')
    } else {
        Ok(0)
    }
}

// A number between two bytes.
#[tactic(auto, unfolding(crate::specs::Reading::between_at))]
#[inline(never)]
fn take_between(cursor: &mut Cursor<'_>, opening: u8, closing: u8) -> Result<u32, Stop>
    ensures { Moves result cursor.new.rest.now (between_at opening closing cursor.old.rest.now) }
{
    cursor.byte(opening)?;
    let target = cursor.decimal()?;
    cursor.byte(closing)?;
    Ok(target)
}
