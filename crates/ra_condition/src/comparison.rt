//! The comparisons, read as long as they go: docs/DEFINITIONS.md, "Conditions".

ghost use Rattle.ra_condition.specs.Reading.{comparison_at, equal_at, greater_at, less_at, unequal_at};
ghost use Rattle.ra_text.specs.Moves.{Moves};

use ra_operand::Op;
use ra_text::{Cursor, Stop};

// cmp
#[tactic(auto, unfolding(crate::specs::Reading::comparison_at, crate::specs::Reading::unequal_or_ordered_at, crate::specs::Reading::less_or_greater_at))]
#[inline(always)]
pub fn take_comparison(cursor: &mut Cursor<'_>) -> Result<Op, Stop>
    ensures { Moves result cursor.new.rest.now (comparison_at cursor.old.rest.now) }
{
    if cursor.is_at(b'=') {
        take_equal(cursor)
    } else if cursor.is_at(b'!') {
        take_unequal(cursor)
    } else if cursor.is_at(b'<') {
        take_less(cursor)
    } else {
        take_greater(cursor)
    }
}

// "=" | "=="
#[tactic(auto, unfolding(crate::specs::Reading::equal_at))]
fn take_equal(cursor: &mut Cursor<'_>) -> Result<Op, Stop>
    ensures { Moves result cursor.new.rest.now (equal_at cursor.old.rest.now) }
{
    cursor.byte(b'=')?;
    cursor.skip(b'=');
    Ok(Op::Eq)
}

// "!="
#[tactic(auto, unfolding(crate::specs::Reading::unequal_at))]
fn take_unequal(cursor: &mut Cursor<'_>) -> Result<Op, Stop>
    ensures { Moves result cursor.new.rest.now (unequal_at cursor.old.rest.now) }
{
    cursor.byte(b'!')?;
    cursor.byte(b'=')?;
    Ok(Op::Ne)
}

// "<" | "<="
#[tactic(auto, unfolding(crate::specs::Reading::less_at))]
fn take_less(cursor: &mut Cursor<'_>) -> Result<Op, Stop>
    ensures { Moves result cursor.new.rest.now (less_at cursor.old.rest.now) }
{
    cursor.byte(b'<')?;
    if cursor.skip(b'=') {
        Ok(Op::Le)
    } else {
        Ok(Op::Lt)
    }
}

// ">" | ">="
#[tactic(auto, unfolding(crate::specs::Reading::greater_at))]
fn take_greater(cursor: &mut Cursor<'_>) -> Result<Op, Stop>
    ensures { Moves result cursor.new.rest.now (greater_at cursor.old.rest.now) }
{
    cursor.byte(b'>')?;
    if cursor.skip(b'=') {
        Ok(Op::Ge)
    } else {
        Ok(Op::Gt)
    }
}
