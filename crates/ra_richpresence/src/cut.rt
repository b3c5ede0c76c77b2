//! The lines of a script: docs/DEFINITIONS.md, "Presence scripts".

ghost use Rattle.std.specs.Prelude.{◌≡◌, ◌-◌, ◌≤◌, IfOk, length, map};
ghost use Rattle.ra_richpresence.specs.Cut.{begins_comment, is_blank, left_of, lines_of, trimmed, uncommented};
ghost use Rattle.ra_richpresence.specs.Following.{view_of};
ghost use Rattle.ra_richpresence.specs.Placed.{IsFeedAt, SplitsLine, placed, without_return};

use crate::script_line::ScriptLine;
use ra_text::OutOfMemory;
use std::alloc::Global;

/// What is left of the lines of a text, but for those of which nothing is left.
pub fn cut_lines<'a>(alloc: Global, text: &'a [u8]) -> Result<Vec<ScriptLine<'a>>, OutOfMemory>
    ensures { IfOk result (λ lines. map view_of lines.items ≡ placed 0 (lines_of text.now)) }
{
    let mut lines = Vec::new(alloc);
    let mut rest = text;
    while !rest.is_empty() {
        let start = text.len() - rest.len();
        let (line, behind) = split_line(rest);
        let bytes = left_of(line);
        if !bytes.is_empty() {
            lines.push(ScriptLine { start, bytes })?;
        }
        rest = behind;
    }
    Ok(lines)
}

/// The first line of a text without its end, and what stands after it.
pub fn split_line<'a>(text: &'a [u8]) -> (&'a [u8], &'a [u8])
    ensures { SplitsLine text.now result.0.now result.1.now }
{
    let end = feed_at(text);
    let (line, behind) = text.split_at(end);
    match behind {
        [_, after @ ..] => (without_return(line), after),
        [] => (line, behind),
    }
}

// How many bytes stand before the first line feed, and the length where there is none.
fn feed_at(text: &[u8]) -> usize
    ensures { IsFeedAt text.now result }
{
    let mut at = 0;
    while at < text.len() && text[at] != b'\n' {
        at += 1;
    }
    at
}

// A line without a carriage return at its end.
fn without_return(line: &[u8]) -> &[u8]
    ensures { result.now ≡ without_return line.now }
{
    match line {
        [front @ .., last] if *last == b'\r' => front,
        _ => line,
    }
}

/// What is left of a line: it is cut before its first `//`, and then loses the blanks at its end.
pub fn left_of(line: &[u8]) -> &[u8]
    ensures { result.now ≡ left_of line.now }
{
    trimmed(uncommented(line))
}

// What stands before the first `//`.
fn uncommented(line: &[u8]) -> &[u8]
    ensures { result.now ≡ uncommented line.now }
{
    let mut rest = line;
    while let [_, after @ ..] = rest {
        if begins_comment(rest) {
            break;
        }
        rest = after;
    }
    let (before, _) = line.split_at(line.len() - rest.len());
    before
}

// A comment begins here.
fn begins_comment(line: &[u8]) -> bool
    ensures { result ≡ begins_comment line.now }
{
    matches!(line, [b'/', b'/', ..])
}

// A line without the blanks at its end.
fn trimmed(line: &[u8]) -> &[u8]
    ensures { result.now ≡ trimmed line.now }
{
    let mut rest = line;
    while let [front @ .., last] = rest {
        if !is_blank(*last) {
            break;
        }
        rest = front;
    }
    rest
}

// A space or a tab.
fn is_blank(byte: u8) -> bool
    ensures { result ≡ is_blank byte }
{
    byte == b' ' || byte == b'\t'
}
