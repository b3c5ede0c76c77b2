//! The spans of lookups, laid out once: docs/DEFINITIONS.md, "Presence over frames".

ghost use Rattle.std.specs.Prelude.{◌+◌, ◌≤◌, ◌&&◌, IfOk, None, Some, if◌then◌else◌, length, nat_le};
ghost use Rattle.ra_richpresence.specs.Lines.{holds};
ghost use Rattle.ra_richpresence.specs.Spans.{AreLaidOut, AreSpans, line_of};

use crate::laid_over::laid_over;
use crate::lookup::{Keys, Lookup};
use crate::span::Span;
use ra_text::OutOfMemory;
use std::alloc::Global;

/// The spans of each lookup.
pub fn spans_of_lookups(alloc: Global, lookups: &[Lookup]) -> Result<Vec<Vec<Span>>, OutOfMemory>
    ensures { IfOk result (λ spans. AreLaidOut lookups.now spans.items) }
{
    let mut spans = Vec::with_capacity(alloc, lookups.len())?;
    for lookup in lookups {
        spans.push(spans_of_keys(alloc, &lookup.keys, 0)?)?;
    }
    Ok(spans)
}

// The spans of keys lines, where `at` lines stand before them.
fn spans_of_keys(alloc: Global, keys: &[Keys], at: usize) -> Result<Vec<Span>, OutOfMemory>
    requires { at + length keys.now ≤ usize.MAX }
    ensures { IfOk result (λ spans. AreSpans (line_of at keys.now) spans.items) }
{
    match keys {
        [] => Ok(Vec::new(alloc)),
        [line] => spans_of_ranges(alloc, &line.ranges, at),
        _ => {
            let half = keys.len() / 2;
            let (earlier, later) = keys.split_at(half);
            let over = spans_of_keys(alloc, earlier, at)?;
            let under = spans_of_keys(alloc, later, at + half)?;
            laid_over(alloc, &over, &under)
        }
    }
}

// The spans of the ranges of a keys line of this index.
fn spans_of_ranges(
    alloc: Global,
    ranges: &[(u32, u32)],
    line: usize,
) -> Result<Vec<Span>, OutOfMemory>
    ensures { IfOk result (λ spans. AreSpans (λ n. if holds ranges.now n then Some line else None) spans.items) }
{
    match ranges {
        [] => Ok(Vec::new(alloc)),
        [(first, last)] => spans_of_range(alloc, *first, *last, line),
        _ => {
            let (earlier, later) = ranges.split_at(ranges.len() / 2);
            let over = spans_of_ranges(alloc, earlier, line)?;
            let under = spans_of_ranges(alloc, later, line)?;
            laid_over(alloc, &over, &under)
        }
    }
}

// The spans of a range; one that ends below its start has none.
fn spans_of_range(
    alloc: Global,
    first: u32,
    last: u32,
    line: usize,
) -> Result<Vec<Span>, OutOfMemory>
    ensures { IfOk result (λ spans. AreSpans (λ n. if nat_le first n && nat_le n last then Some line else None) spans.items) }
{
    let mut spans = Vec::with_capacity(alloc, 2)?;
    if first <= last {
        spans.push(Span {
            from: first,
            line: Some(line),
        })?;
        if let Some(behind) = last.checked_add(1) {
            spans.push(Span {
                from: behind,
                line: None,
            })?;
        }
    }
    Ok(spans)
}
