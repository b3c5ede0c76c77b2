//! Warnings put one after the other.

ghost use Rattle.std.specs.Prelude.{◌≡◌, ◌++◌, OnOk};
ghost use Rattle.ra_lint.specs.Passing.{warning_at, warnings_by};
ghost use Rattle.ra_lint.specs.Warnings.{where_so};

use crate::judged::Judged;
use crate::warning::{Place, Warning, Word};
use ra_condition::Condition;
use ra_text::OutOfMemory;

/// A group of a set: the number of its item, the trigger of that item, and its number there.
#[derive(Clone, Copy, Debug, PartialEq, Eq)]
pub(crate) struct Spot {
    pub item: u32,
    pub place: Place,
    pub group: u32,
}

/// Puts the warnings on a condition, in the order of the words.
pub(crate) fn put_warnings(
    found: &mut Vec<Warning>,
    spot: Spot,
    place: u32,
    condition: &Condition,
    judged: Judged,
) -> Result<(), OutOfMemory>
    ensures { OnOk result (found.new.items ≡ found.old.items ++ warnings_by spot place condition.now
        judged.verdict judged.chance) }
{
    if condition.flag.hands_on() {
        return Ok(());
    }
    let unreachable = judged.chance.never_reaches(condition.target);
    put_where(found, judged.verdict.never, spot, place, Word::Never)?;
    put_where(found, judged.verdict.always, spot, place, Word::Always)?;
    put_where(found, unreachable, spot, place, Word::Unreachable)?;
    Ok(())
}

/// Puts a warning where it holds.
pub(crate) fn put_where(
    found: &mut Vec<Warning>,
    holds: bool,
    spot: Spot,
    condition: u32,
    word: Word,
) -> Result<(), OutOfMemory>
    ensures { OnOk result (found.new.items
        ≡ found.old.items ++ where_so holds (warning_at spot condition word)) }
{
    if holds {
        found.push(Warning {
            item: spot.item,
            place: spot.place,
            group: spot.group,
            condition,
            word,
        })?;
    }
    Ok(())
}
