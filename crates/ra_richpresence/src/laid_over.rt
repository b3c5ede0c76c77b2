//! One row of spans laid over another: docs/DEFINITIONS.md, "Presence over frames".

ghost use Rattle.std.specs.Prelude.{◌≡◌, ◌++◌, [], ◌∷◌, ◌⊎◌, ℕ, IfOk, None, OnOk};
ghost use Rattle.std.specs.List.Sorted.{IsNonDecreasingBy};
ghost use Rattle.std.specs.Option.{option_or};
ghost use Rattle.ra_richpresence.specs.Spans.{line_at};

use crate::span::Span;
use crate::walk::{Walk, next_from};
use ra_text::OutOfMemory;
use std::alloc::Global;

/// The spans of two rows, where a line of the first hides those of the second.
pub fn laid_over(alloc: Global, over: &[Span], under: &[Span]) -> Result<Vec<Span>, OutOfMemory>
    requires over { IsNonDecreasingBy (λ (s : Span). s.from) over.now }
    requires under { IsNonDecreasingBy (λ (s : Span). s.from) under.now }
    ensures rise { IfOk result (λ spans. IsNonDecreasingBy (λ (s : Span). s.from) spans.items) }
    ensures found { IfOk result (λ spans. (n : ℕ)
        → line_at None spans.items n ≡ option_or (line_at None over.now n) (line_at None under.now n)) }
{
    let mut spans = Vec::with_capacity(alloc, over.len() + under.len())?;
    let mut first = Walk {
        line: None,
        left: over,
    };
    let mut second = Walk {
        line: None,
        left: under,
    };
    let mut before = None;
    while let Some(from) = next_from(first.left, second.left) {
        first.pass(from);
        second.pass(from);
        let line = first.line.or(second.line);
        put_span(&mut spans, before, Span { from, line })?;
        before = line;
    }
    Ok(spans)
}

// Puts a span after others, unless its line is the one before it.
fn put_span(spans: &mut Vec<Span>, before: Option<usize>, span: Span) -> Result<(), OutOfMemory>
    ensures { OnOk result ((spans.new.items ≡ spans.old.items ++ span ∷ [])
        ⊎ ((before ≡ span.line) × (spans.new.items ≡ spans.old.items))) }
{
    if before != span.line {
        spans.push(span)?;
    }
    Ok(())
}
