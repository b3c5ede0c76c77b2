//! The lines of a file before its script: docs/DEFINITIONS.md, "Review of a set".

ghost use Rattle.std.specs.Prelude.{◌≡◌, ◌≤◌, [], length, option_map, IfOk};
ghost use Rattle.std.specs.List.{list_all};
ghost use Rattle.ra_set.specs.Limits.{most_bytes};
ghost use Rattle.ra_review.specs.Lines.{is_space, nothing, opens_script};
ghost use Rattle.ra_review.specs.Reporting.{Reports, ReportsFront};

use crate::report::Report;
use ra_richpresence::split_line;
use ra_text::OutOfMemory;
use std::alloc::Global;

/// Judges the lines of a file up to the line P and it, and gives what stands after it, where there
/// is one.
pub(crate) fn review_front<'a>(
    alloc: Global,
    report: &mut Report,
    bytes: &'a [u8],
) -> Result<Option<&'a [u8]>, OutOfMemory>
    requires size { length bytes.now ≤ most_bytes }
    requires none { Reports report.old [] nothing }
    ensures { IfOk result (λ script. ReportsFront bytes.now report.new (option_map (λ text. text.now) script)) }
{
    let mut rest = bytes;
    while !rest.is_empty() {
        let (content, behind) = split_line(rest);
        let (line, _) = rest.split_at(rest.len() - behind.len());
        report.add_line(alloc, line, content)?;
        if opens_script(content) {
            return Ok(Some(behind));
        }
        rest = behind;
    }
    Ok(None)
}

// The line is the line P.
fn opens_script(content: &[u8]) -> bool
    ensures { result ≡ opens_script content.now }
{
    match content {
        [b'P' | b'p', behind @ ..] => are_spaces(behind),
        _ => false,
    }
}

// Nothing but spaces, tabs and carriage returns.
fn are_spaces(text: &[u8]) -> bool
    ensures { result ≡ list_all is_space text.now }
{
    text.iter().all(|byte| is_space(*byte))
}

// A space, a tab or a carriage return.
fn is_space(byte: u8) -> bool
    ensures { result ≡ is_space byte }
{
    byte == b' ' || byte == b'\t' || byte == b'\r'
}
