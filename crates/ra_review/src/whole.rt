//! The review of a file: docs/DEFINITIONS.md, "Review of a set".

ghost use Rattle.std.specs.Prelude.{◌≡◌, ◌+◌, ◌*◌, ◌++◌, ◌<◌, ◌≤◌, ◌^◌, ℕ, List, None, Option, Some, IfOk, OnOk, length, map, sum_by};
ghost use Rattle.std.specs.Option.{option_copied};
ghost use Rattle.ra_richpresence.specs.Grammar.{ScriptParts};
ghost use Rattle.ra_set.specs.Contents.{item_contents};
ghost use Rattle.ra_set.specs.Limits.{item_conditions, most_bytes};
ghost use Rattle.ra_set.specs.ScriptLimits.{IsReadOf, read_conditions};
ghost use Rattle.ra_review.specs.Reporting.{Judges, ReportsFront, ReviewsScript, said_by};
ghost use Rattle.ra_review.specs.Reviews.{IsLimit, IsReview, IsReviewOf, SaysTooLong, limit_text, refused_line};

use crate::entries::more;
use crate::front::review_front;
use crate::macros::put_macros;
use crate::report::Report;
use crate::reviewed::Reviewed;
use crate::script::{refuse_script, walk};
use crate::shown::put_last;
use ra_condition::Refused;
use ra_richpresence::{ReadScript, read_script};
use ra_set::{SetRefused, Which, check_limits};
use ra_text::OutOfMemory;
use std::alloc::Global;
use std::io::Write;

/// Reviews the file of a set: docs/DEFINITIONS.md, "Review of a set".
pub fn review(alloc: Global, bytes: &[u8]) -> Result<Reviewed, OutOfMemory>
    ensures { IfOk result (λ review. IsReview bytes.now (said_by review)) }
{
    if bytes.len() as u64 > Which::Bytes.most() {
        let review = review_long(alloc, bytes.len())?;
        return Ok(review);
    }
    let review = review_file(alloc, bytes)?;
    Ok(review)
}

// Reviews a file that has too many bytes.
fn review_long(alloc: Global, length: usize) -> Result<Reviewed, OutOfMemory>
    ensures { IfOk result (λ review. SaysTooLong length (said_by review)) }
{
    let why = SetRefused::Limit {
        which: Which::Bytes,
        found: length as u64,
    };
    let mut text = Vec::new(alloc);
    put_refused(&mut text, why)?;
    Ok(Reviewed {
        text,
        refused: 0,
        limit: Some(why),
    })
}

// Puts the line of a limit, where one is passed.
fn put_limit(out: &mut Vec<u8>, limit: Option<SetRefused>) -> Result<(), OutOfMemory>
    ensures { OnOk result (out.new.items ≡ out.old.items ++ limit_text limit) }
{
    match limit {
        Some(why) => put_refused(out, why),
        None => Ok(()),
    }
}

// Puts the line that says why a set is refused.
fn put_refused(out: &mut Vec<u8>, why: SetRefused) -> Result<(), OutOfMemory>
    ensures { OnOk result (out.new.items ≡ out.old.items ++ refused_line why) }
{
    match write!(out, "set refused: {why}\n") {
        Ok(()) => Ok(()),
        Err(_) => Err(OutOfMemory),
    }
}

// Reviews a file of as many bytes as a set may have.
fn review_file(alloc: Global, bytes: &[u8]) -> Result<Reviewed, OutOfMemory>
    requires { length bytes.now ≤ most_bytes }
    ensures { IfOk result (λ review. IsReviewOf bytes.now (said_by review)) }
{
    let mut report = Report::none(alloc);
    let behind = review_front(alloc, &mut report, bytes)?;
    match behind {
        Some(text) => {
            let review = review_behind(alloc, &mut report, text)?;
            Ok(review)
        }
        None => {
            let review = finish(alloc, &report, None, 0)?;
            Ok(review)
        }
    }
}

// Reviews the script that stands after the lines, and ends the review.
fn review_behind(alloc: Global, report: &mut Report, text: &[u8]) -> Result<Reviewed, OutOfMemory>
    requires size { length text.now ≤ most_bytes }
    requires few { sum_by item_conditions (map item_contents report.old.items.items) ≤ 178956970 * 4194304 }
    ensures { IfOk result (λ review. (file : List ℕ) → ReportsFront file report.old (Some text.now) → IsReviewOf file (said_by review)) }
{
    let read = review_script(alloc, report, text)?;
    let walked = walk(text)?;
    let review = finish(alloc, report, read.as_ref(), walked.lines)?;
    Ok(review)
}

// Judges the script that stands after the line P.
fn review_script(
    alloc: Global,
    report: &mut Report,
    text: &[u8],
) -> Result<Option<ReadScript>, OutOfMemory>
    ensures { IfOk result (λ read. ReviewsScript (report.old.lines + 1) text.now report.old report.new read) }
{
    let number = more(report.lines, 1)?;
    match read_script(alloc, text, Which::Lookup.most()) {
        Ok(read) => {
            put_macros(&mut report.notices, number, text, &read.script)?;
            Ok(Some(read))
        }
        Err(Refused::Syntax { at }) => {
            refuse_script(alloc, &mut report.refusals, number, text, at)?;
            Ok(None)
        }
        Err(Refused::Memory) => Err(OutOfMemory),
    }
}

// Ends a review, where the script has this many lines.
fn finish(
    alloc: Global,
    report: &Report,
    script: Option<&ReadScript>,
    lines: usize,
) -> Result<Reviewed, OutOfMemory>
    requires { sum_by item_conditions (map item_contents report.now.items.items) + read_conditions (option_copied script) < 2 ^ 64 }
    ensures { IfOk result (λ review. (file : List ℕ) → Judges file report.now (option_copied script.entry) lines → IsReviewOf file (said_by review)) }
{
    let limit = limit_of(report, script);
    let lines = more(report.lines, lines)?;
    let mut text = Vec::new(alloc);
    text.extend_from_slice(&report.refusals.text)?;
    text.extend_from_slice(&report.notices.text)?;
    put_limit(&mut text, limit)?;
    put_last(
        &mut text,
        lines,
        report.refusals.count,
        report.notices.count,
    )?;
    Ok(Reviewed {
        text,
        refused: report.refusals.count,
        limit,
    })
}

// The limit that a file passes, where no line of it is refused.
fn limit_of(report: &Report, script: Option<&ReadScript>) -> Option<SetRefused>
    requires { sum_by item_conditions (map item_contents report.now.items.items) + read_conditions (option_copied script) < 2 ^ 64 }
    ensures { (parts : Option ScriptParts) → IsReadOf parts (option_copied script.entry)
        → IsLimit report.now.refusals.count (map item_contents report.now.items.items) parts result }
{
    if report.refusals.count > 0 {
        return None;
    }
    match check_limits(&report.items, script) {
        Ok(()) => None,
        Err(why) => Some(why),
    }
}
