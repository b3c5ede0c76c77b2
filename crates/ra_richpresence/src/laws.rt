//! What holds of all texts and scripts.

ghost use Rattle.ra_richpresence.specs.Grammar.{script};
ghost use Rattle.ra_text.specs.Place.{OneSpelling};

/// A text spells at most one script: docs/DEFINITIONS.md, "Presence scripts".
///
/// A law; no effect at run time.
pub fn one_script()
    ensures { OneSpelling script }
{}
