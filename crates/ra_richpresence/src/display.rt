//! The display of a script: docs/DEFINITIONS.md, "Presence scripts".

ghost use Rattle.std.specs.Prelude.{map};
ghost use Rattle.ra_richpresence.specs.Contents.{line_contents};
ghost use Rattle.ra_richpresence.specs.Following.{MovesUnlessFull, bytes_of};
ghost use Rattle.ra_richpresence.specs.Reading.{display_at, display_head_of, last_line_of, left_only, tested_lines_at};
ghost use Rattle.ra_text.specs.Reading.{one_at};

use crate::display_lines::{read_last_line, read_tested_line};
use crate::heads::is_display_head;
use crate::line::Line;
use crate::lines::Lines;
use ra_condition::Fault;
use std::alloc::Global;

/// Reads a display: lines with tests, and the last one.
#[tactic(auto, unfolding(crate::specs::Reading::display_at))]
pub fn take_display(alloc: Global, lines: &mut Lines<'_>) -> Result<Vec<Line>, Fault>
    ensures { MovesUnlessFull (λ shown. map line_contents shown.items) result lines.new.rest.now (display_at (bytes_of lines.old.rest.now)) }
{
    take_display_head(lines)?;
    let mut shown = take_tested_lines(alloc, lines)?;
    let last = take_last_line(alloc, lines)?;
    shown.push(last)?;
    Ok(shown)
}

// "Display:"
fn take_display_head(lines: &mut Lines<'_>) -> Result<(), Fault>
    ensures { MovesUnlessFull (λ head. head) result lines.new.rest.now (one_at (left_only display_head_of) (bytes_of lines.old.rest.now)) }
{
    match lines.rest {
        [line, after @ ..] if is_display_head(line.bytes) => {
            lines.rest = after;
            Ok(())
        }
        _ => Err(Fault::Stop),
    }
}

// The lines with tests, as many as there are.
fn take_tested_lines(alloc: Global, lines: &mut Lines<'_>) -> Result<Vec<Line>, Fault>
    ensures { MovesUnlessFull (λ tested. map line_contents tested.items) result lines.new.rest.now (tested_lines_at (bytes_of lines.old.rest.now)) }
{
    let mut tested = Vec::new(alloc);
    while let [line, after @ ..] = lines.rest {
        match read_tested_line(alloc, line.bytes) {
            Ok(shown) => tested.push(shown)?,
            Err(Fault::Memory) => return Err(Fault::Memory),
            Err(Fault::Stop) => break,
        }
        lines.rest = after;
    }
    Ok(tested)
}

// The last line, which closes the display.
fn take_last_line(alloc: Global, lines: &mut Lines<'_>) -> Result<Line, Fault>
    ensures { MovesUnlessFull line_contents result lines.new.rest.now (one_at (left_only last_line_of) (bytes_of lines.old.rest.now)) }
{
    match lines.rest {
        [line, after @ ..] => {
            let last = read_last_line(alloc, line.bytes)?;
            lines.rest = after;
            Ok(last)
        }
        [] => Err(Fault::Stop),
    }
}
