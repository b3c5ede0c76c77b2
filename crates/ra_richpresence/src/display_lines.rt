//! Lines of the display: docs/DEFINITIONS.md, "Presence scripts".

ghost use Rattle.std.specs.Prelude.{◌≡◌, true};
ghost use Rattle.ra_condition.specs.Contents.{trigger_contents};
ghost use Rattle.ra_condition.specs.Fault.{GivesUnlessFull};
ghost use Rattle.ra_richpresence.specs.Contents.{line_contents};
ghost use Rattle.ra_richpresence.specs.Cut.{is_left};
ghost use Rattle.ra_richpresence.specs.Following.{SpellsUnlessFull};
ghost use Rattle.ra_richpresence.specs.Reading.{last_line_of, left_only, test_at, tested_line_of};

use crate::line::Line;
use crate::pieces::read_pieces;
use ra_condition::{Fault, TriggerText, take_trigger};
use ra_text::Cursor;
use std::alloc::Global;

/// The line with a test that a line spells.
#[tactic(auto, unfolding(crate::specs::Reading::tested_line_of))]
pub fn read_tested_line(alloc: Global, line: &[u8]) -> Result<Line, Fault>
    requires { is_left line.now ≡ true }
    ensures { SpellsUnlessFull line_contents result (left_only tested_line_of line.now) }
{
    let mut cursor = Cursor::new(line, 0);
    let test = take_test(alloc, &mut cursor)?;
    let mut pieces = read_pieces(alloc, &mut cursor)?;
    pieces.shrink_to_fit();
    Ok(Line {
        test: Some(test),
        pieces,
    })
}

/// The last line of a display that a line spells.
#[tactic(auto, unfolding(crate::specs::Reading::last_line_of))]
pub fn read_last_line(alloc: Global, line: &[u8]) -> Result<Line, Fault>
    requires { is_left line.now ≡ true }
    ensures { SpellsUnlessFull line_contents result (left_only last_line_of line.now) }
{
    let mut cursor = Cursor::new(line, 0);
    if cursor.is_at(b'?') {
        return Err(Fault::Stop);
    }
    let mut pieces = read_pieces(alloc, &mut cursor)?;
    pieces.shrink_to_fit();
    Ok(Line { test: None, pieces })
}

/// Reads a test: `?`, a trigger and `?`.
#[tactic(auto, unfolding(crate::specs::Reading::test_at))]
pub fn take_test(alloc: Global, cursor: &mut Cursor<'_>) -> Result<TriggerText, Fault>
    ensures { GivesUnlessFull trigger_contents result cursor.new.rest.now (test_at cursor.old.rest.now) }
{
    cursor.byte(b'?')?;
    let test = take_trigger(alloc, cursor)?;
    cursor.byte(b'?')?;
    Ok(test)
}
