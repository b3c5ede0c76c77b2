//! Spans that are gone through from the least number on.

ghost use Rattle.std.specs.Prelude.{◌≡◌};
ghost use Rattle.ra_richpresence.specs.Spans.{least_from, left_behind, line_passed};

use crate::span::Span;

/// A row of spans, gone through as far as a number.
#[derive(Clone, Copy)]
pub struct Walk<'a> {
    /// The line of the span that was passed last.
    pub line: Option<usize>,
    /// The spans that are left.
    pub left: &'a [Span],
}

impl Walk<'_> {
    /// Passes the next span, if it begins at the number or below it.
    pub fn pass(&mut self, from: u32)
        ensures line { self.new.line ≡ line_passed from self.old.line self.old.left.now }
        ensures left { self.new.left.now ≡ left_behind from self.old.left.now }
    {
        if let [span, left @ ..] = self.left {
            if span.from <= from {
                self.line = span.line;
                self.left = left;
            }
        }
    }
}

/// Where the next of the spans begins that are left of two rows, if one is left.
pub fn next_from(over: &[Span], under: &[Span]) -> Option<u32>
    ensures { result ≡ least_from over.now under.now }
{
    match (over, under) {
        ([], []) => None,
        ([span, ..], []) => Some(span.from),
        ([], [span, ..]) => Some(span.from),
        ([first, ..], [second, ..]) => Some(first.from.min(second.from)),
    }
}
