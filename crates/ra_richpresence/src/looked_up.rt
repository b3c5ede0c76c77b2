//! The text of a number in a lookup: docs/DEFINITIONS.md, "Presence over frames".

ghost use Rattle.std.specs.Prelude.{◌≡◌, None};
ghost use Rattle.std.specs.List.Sorted.{IsNonDecreasingBy};
ghost use Rattle.ra_richpresence.specs.Contents.{lookup_contents};
ghost use Rattle.ra_richpresence.specs.Shown.{text_in};
ghost use Rattle.ra_richpresence.specs.Spans.{AreSpans, line_at, line_of};

use crate::lookup::Lookup;
use crate::span::Span;

// The text of the first keys that hold a number, else that of all others, else nothing.
pub fn text_in<'a>(lookup: &'a Lookup, spans: &[Span], number: u32) -> &'a [u8]
    requires { AreSpans (line_of 0 lookup.now.keys.items) spans.now }
    ensures { result.now ≡ text_in (lookup_contents lookup.now) number }
{
    match line_at(spans, number) {
        Some(line) => &lookup.keys[line].text,
        None => match &lookup.rest {
            Some(text) => text,
            None => &[],
        },
    }
}

// The line of the last span that begins at a number or below it.
fn line_at(spans: &[Span], number: u32) -> Option<usize>
    requires { IsNonDecreasingBy (λ (s : Span). s.from) spans.now }
    ensures { result ≡ line_at None spans.now number }
{
    let behind = spans.partition_point(|span| span.from <= number);
    if behind == 0 {
        None
    } else {
        spans[behind - 1].line
    }
}
