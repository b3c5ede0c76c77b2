//! Conditions: docs/DEFINITIONS.md, "Conditions".

ghost use Rattle.std.specs.Prelude.{◌≡◌};
ghost use Rattle.ra_condition.specs.Grammar.{flags};
ghost use Rattle.ra_condition.specs.Reading.{begins_condition, begins_flag, condition_at, flagged_at, unflagged_at};
ghost use Rattle.ra_text.specs.Moves.{Moves};
ghost use Rattle.ra_text.specs.Reading.{begins, one_at};
ghost use Rattle.ra_text.specs.Table.{lookup};

use crate::condition::Condition;
use crate::flag::Flag;
use crate::setting::Setting;
use crate::tables::{flag_of, may_stand_bare};
use crate::tails::take_tail;
use ra_operand::{begins_operand, kind_of, take_operand};
use ra_text::{Cursor, Stop};

// cond, in a value vcond
#[tactic(auto, unfolding(crate::specs::Reading::condition_at))]
#[inline(always)]
pub fn take_condition(cursor: &mut Cursor<'_>, setting: Setting) -> Result<Condition, Stop>
    ensures { Moves result cursor.new.rest.now (condition_at setting cursor.old.rest.now) }
{
    if is_flag(cursor.rest) {
        take_flagged(cursor, setting)
    } else {
        take_unflagged(cursor, setting, Flag::Plain)
    }
}

// flag ":" and what follows it
#[tactic(auto, unfolding(crate::specs::Reading::flagged_at))]
#[inline(never)]
pub fn take_flagged(cursor: &mut Cursor<'_>, setting: Setting) -> Result<Condition, Stop>
    ensures { Moves result cursor.new.rest.now (flagged_at setting cursor.old.rest.now) }
{
    let flag = take_flag(cursor)?;
    cursor.byte(b':')?;
    take_unflagged(cursor, setting, flag)
}

// A condition after its flag.
#[tactic(auto, unfolding(crate::specs::Reading::unflagged_at))]
#[inline(always)]
fn take_unflagged(cursor: &mut Cursor<'_>, setting: Setting, flag: Flag) -> Result<Condition, Stop>
    ensures { Moves result cursor.new.rest.now (unflagged_at setting flag cursor.old.rest.now) }
{
    let left = take_operand(cursor)?;
    let tail = take_tail(cursor, flag.hands_on(), may_stand_bare(setting, flag))?;
    Ok(Condition {
        flag,
        left,
        op: tail.op,
        right: tail.right,
        target: tail.target,
    })
}

// The letter of a flag.
fn take_flag(cursor: &mut Cursor<'_>) -> Result<Flag, Stop>
    ensures { Moves result cursor.new.rest.now (one_at (lookup flags) cursor.old.rest.now) }
{
    if let [byte, after @ ..] = cursor.rest {
        if let Some(flag) = flag_of(*byte) {
            cursor.rest = after;
            return Ok(flag);
        }
    }
    Err(Stop)
}

// Whether a flag is next. The letters of flags that are prefixes of operands too need a colon.
#[inline(always)]
pub fn is_flag(text: &[u8]) -> bool
    ensures { result ≡ begins_flag text.now }
{
    match text {
        [] => false,
        [byte, after @ ..] => {
            flag_of(*byte).is_some()
                && (Cursor { rest: after }.is_at(b':') || kind_of(*byte).is_none())
        }
    }
}

// Whether a condition may begin here.
pub fn is_condition(text: &[u8]) -> bool
    ensures { result ≡ begins begins_condition text.now }
{
    match text {
        [] => false,
        [byte, ..] => flag_of(*byte).is_some() || begins_operand(*byte),
    }
}
