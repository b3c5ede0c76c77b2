ghost use Rattle.std.proofs.Props.{props};
ghost use Rattle.ra_richpresence.specs.Meanings.{AreMeanings};
ghost use Rattle.ra_richpresence.specs.Spans.{AreLaidOut};

use crate::line::Line;
use crate::lookup::Lookup;
use crate::meaning::Meaning;
use crate::span::Span;
use ra_value_format::Format;

/// A presence script: docs/DEFINITIONS.md, "Presence scripts". Of the lookups and formats that
/// share a name only the first is kept.
#[derive(Drop)]
pub struct Script {
    /// The lookups that are kept, in text order.
    pub lookups: Vec<Lookup>,
    /// The formats that are kept, each under its name, in text order.
    pub formats: Vec<(Vec<u8>, Format)>,
    /// The lines of the display in text order, at least one.
    pub lines: Vec<Line>,
    /// For each line what its macros show, in text order.
    pub meanings: Vec<Vec<Meaning>>,
    /// For each lookup its spans.
    pub spans: Vec<Vec<Span>>,
    ghost named: { AreMeanings lookups.items formats.items lines.items meanings.items },
    ghost laid: { AreLaidOut lookups.items spans.items } by { Prim.hlevel props },
}
