//! The script of a file: docs/DEFINITIONS.md, "Review of a set".

ghost use Rattle.std.specs.Prelude.{◌≡◌, IfOk, OnOk};
ghost use Rattle.ra_richpresence.specs.Places.{IsOutside};
ghost use Rattle.ra_review.specs.Judging.{IsPlaceAfter, RefusesScript, Walks, display_after};
ghost use Rattle.ra_review.specs.declared.script.Display.TheVariants as opening;

use crate::display::display_place;
use crate::entries::{Entries, more};
use crate::formats::is_text;
use ra_richpresence::{left_of, split_line};
use ra_text::OutOfMemory;
use std::alloc::Global;

/// Whether a display is open.
#[derive(Clone, Copy, Debug, PartialEq, Eq)]
pub(crate) enum Display {
    /// It was not opened yet.
    Before,
    Open,
    Closed,
}

/// Lines of a script that were gone over.
#[derive(Clone, Copy)]
pub(crate) struct Walked {
    /// How many.
    pub lines: usize,
    pub display: Display,
}

/// Adds the refusal of a script, whose first line has this number. Its first bad line starts at
/// `start`.
pub(crate) fn refuse_script(
    alloc: Global,
    refusals: &mut Entries,
    number: usize,
    text: &[u8],
    start: usize,
) -> Result<(), OutOfMemory>
    requires { IsOutside text.now start }
    ensures { OnOk result (RefusesScript number text.now refusals.old refusals.new) }
{
    let (before, behind) = text.split_at(start);
    let walked = walk(before)?;
    let (content, _) = split_line(behind);
    let place = place_in(alloc, walked.display, left_of(content))?;
    refusals.refuse(more(number, walked.lines)?, place, content)?;
    Ok(())
}

// The place in a bad line, by whether a display is open.
fn place_in(alloc: Global, display: Display, left: &[u8]) -> Result<usize, OutOfMemory>
    ensures { IfOk result (λ place. IsPlaceAfter display left.now place) }
{
    match display {
        Display::Open => display_place(alloc, left),
        _ => Ok(0),
    }
}

/// Goes over the lines of a text.
pub(crate) fn walk(text: &[u8]) -> Result<Walked, OutOfMemory>
    ensures { IfOk result (λ walked. Walks text.now walked) }
{
    let mut walked = Walked {
        lines: 0,
        display: Display::Before,
    };
    let mut rest = text;
    while !rest.is_empty() {
        let (content, behind) = split_line(rest);
        walked.lines = more(walked.lines, 1)?;
        walked.display = walked.display.after(left_of(content));
        rest = behind;
    }
    Ok(walked)
}

impl Display {
    ghost use Rattle.std.specs.Prelude.{◌≡◌};
    ghost use Rattle.ra_review.specs.Judging.{display_after};

    /// After a line of which this remains.
    pub fn after(self, left: &[u8]) -> Display
        ensures { result ≡ display_after self left.now }
    {
        match self {
            Display::Before => after_head(left),
            Display::Open => after_line(left),
            Display::Closed => Display::Closed,
        }
    }
}

// After a line before the display.
fn after_head(left: &[u8]) -> Display
    ensures { result ≡ display_after opening.Before left.now }
{
    if is_text(left, b"Display:") {
        Display::Open
    } else {
        Display::Before
    }
}

// After a line of an open display.
fn after_line(left: &[u8]) -> Display
    ensures { result ≡ display_after opening.Open left.now }
{
    match left {
        [] => Display::Open,
        [b'?', ..] => Display::Open,
        _ => Display::Closed,
    }
}
