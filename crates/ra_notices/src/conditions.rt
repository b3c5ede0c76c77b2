//! Notices on one condition: docs/DEFINITIONS.md, "Review of a set".

ghost use Rattle.std.specs.Prelude.{◌≡◌, ◌||◌, ◌++◌, OnOk};
ghost use Rattle.ra_notices.specs.Notices.{has_memory_right, is_recall, is_word_at, where_so};
ghost use Rattle.ra_notices.specs.Noticing.{notice_at, notices_by};

use crate::notice::{Notice, Word};
use ra_condition::Condition;
use ra_lint::Place;
use ra_operand::{Kind, Operand, Size};
use ra_text::OutOfMemory;

/// A group of the trigger at a place.
#[derive(Clone, Copy)]
pub(crate) struct Spot {
    pub place: Place,
    pub group: usize,
}

/// What is seen of a condition.
#[derive(Clone, Copy)]
pub(crate) struct Seen {
    pub chained: bool,
    pub twice: bool,
    pub memory_right: bool,
    pub resets: bool,
    pub pauses: bool,
}

impl Seen {
    ghost use Rattle.std.specs.Prelude.{◌≡◌, ◌||◌, not};

    // Nothing is seen that a notice tells.
    fn is_nothing(self) -> bool
        ensures { result ≡ not (self.chained || self.twice || self.memory_right || self.resets || self.pauses) }
    {
        !(self.chained || self.twice || self.memory_right || self.resets || self.pauses)
    }
}

/// An operand of the condition is `{recall}`.
pub(crate) fn has_recall(condition: &Condition) -> bool
    ensures { result ≡ (is_recall condition.now.left || is_recall condition.now.right) }
{
    is_recall(condition.left) || is_recall(condition.right)
}

// The operand is `{recall}`.
fn is_recall(operand: Operand) -> bool
    ensures { result ≡ is_recall operand }
{
    matches!(operand, Operand::Recall)
}

/// The right operand is a cell where a number was meant, as its address says.
pub(crate) fn has_memory_right(condition: &Condition) -> bool
    ensures { result ≡ has_memory_right condition.now.left condition.now.right }
{
    match condition.right {
        Operand::Cell(Kind::Mem, Size::Two, address) => {
            address < 256 && !is_word_at(condition.left, address)
        }
        _ => false,
    }
}

// The operand is a cell of 16 bits at this address.
fn is_word_at(operand: Operand, wanted: u32) -> bool
    ensures { result ≡ is_word_at operand wanted }
{
    match operand {
        Operand::Cell(_, Size::Two, address) => address == wanted,
        _ => false,
    }
}

/// Puts the notices on a condition, in the order of the words.
pub(crate) fn put_notices(
    found: &mut Vec<Notice>,
    spot: Spot,
    place: usize,
    seen: Seen,
) -> Result<(), OutOfMemory>
    ensures { OnOk result (found.new.items ≡ found.old.items ++ notices_by spot place seen) }
{
    if seen.is_nothing() {
        return Ok(());
    }
    put_where(found, seen.chained, spot, place, Word::OpenChain)?;
    put_where(found, seen.twice, spot, place, Word::Twice)?;
    put_where(found, seen.memory_right, spot, place, Word::MemoryRight)?;
    put_where(found, seen.resets, spot, place, Word::ResetsAlways)?;
    put_where(found, seen.pauses, spot, place, Word::PausesAlways)
}

/// Puts a notice where it holds.
pub(crate) fn put_where(
    found: &mut Vec<Notice>,
    holds: bool,
    spot: Spot,
    condition: usize,
    word: Word,
) -> Result<(), OutOfMemory>
    ensures { OnOk result (found.new.items ≡ found.old.items ++ where_so holds (notice_at spot condition word)) }
{
    if holds {
        found.push(Notice {
            place: spot.place,
            group: spot.group,
            condition,
            word,
        })?;
    }
    Ok(())
}
